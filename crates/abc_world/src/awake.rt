//! Which actors may have something to do.

/// How many words of 64 marks hold one for each actor of the largest network.
const WORDS: usize = 5;

/// A mark for each actor that may have an event to make. An actor without a mark has none: it was
/// asked when it lost the mark, and nothing was sent to it since.
///
/// The marks only tell where to look first. What an actor can do is asked of the actor itself, and no
/// contract rests on them.
#[derive(Clone, Copy, Debug)]
pub(crate) struct Awake {
    words: [u64; WORDS],
}

impl Awake {
    /// Every actor has its mark.
    pub(crate) fn all() -> Awake {
        Awake {
            words: [u64::MAX; WORDS],
        }
    }

    /// An actor gets its mark.
    pub(crate) fn wake(&mut self, actor: u32) {
        let word = (actor / 64) as usize;
        if word < WORDS {
            self.words[word] |= 1 << (actor % 64);
        }
    }

    /// An actor loses its mark.
    pub(crate) fn rest(&mut self, actor: u32) {
        let word = (actor / 64) as usize;
        if word < WORDS {
            self.words[word] &= !(1 << (actor % 64));
        }
    }

    /// The first actor with a mark.
    pub(crate) fn first(&self) -> Option<u32> {
        'looking: for word in 0..WORDS {
            let marks = self.words[word];
            if marks != 0 {
                return Some(word as u32 * 64 + marks.trailing_zeros());
            }
        }
        None
    }
}
