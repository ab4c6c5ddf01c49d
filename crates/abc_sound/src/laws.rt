//! Each function's contract is a law, and its body does nothing.

ghost use Rattle.std.specs.Prelude.{◌≡◌};
ghost use Rattle.abc_sound.specs.SoundLaws.{LeastWidthsExist, LeastBreadthsExist, ProgramsBeginSound, SpeakingKeepsSoundness, HearingKeepsSoundness, PartsAreShort, ActionsAreFew, LeavesAreFew, OutputsAreFew, InputsAreFew, SpeakingPlacesFit, HearingPlacesFit, CalledAreDefined, SoundCallsEnd};

use crate::limits::{MOST_ACTIONS, MOST_MOVES};

/// The limits that these laws speak of: 1,024 actions of a part and 65,536 moves of a component.
pub fn move_limits_are_these()
    ensures actions { MOST_ACTIONS ≡ 1024 }
    ensures moves { MOST_MOVES ≡ 65536 }
{}

/// The widths and the breadths that the checks speak of exist.
pub fn least_measures_exist()
    ensures widths { LeastWidthsExist }
    ensures breadths { LeastBreadthsExist }
{}

/// Each component of a checked program is sound as the program begins with it.
pub fn programs_begin_sound()
    ensures { ProgramsBeginSound }
{}

/// What a sound component becomes is sound: it speaks, hears or discards.
pub fn moves_keep_soundness()
    ensures speaking { SpeakingKeepsSoundness }
    ensures hearing { HearingKeepsSoundness }
{}

/// The walk over the unguarded part of a part of a checked program meets at most 2,048 parts, and at
/// most 1,024 actions among them.
pub fn parts_are_short()
    ensures parts { PartsAreShort }
    ensures actions { ActionsAreFew }
{}

/// At most 64 processes stand side by side in a sound component.
pub fn sound_components_are_narrow()
    ensures { LeavesAreFew }
{}

/// A sound component has at most 65,536 outputs and as many inputs that take a message, and their places
/// fit 16 bits.
pub fn counts_are_small()
    ensures outputs { OutputsAreFew }
    ensures inputs { InputsAreFew }
    ensures said { SpeakingPlacesFit }
    ensures heard { HearingPlacesFit }
{}

/// Each call in a sound component has a definition, and its unguarded calls come to an end.
pub fn calls_end()
    ensures defined { CalledAreDefined }
    ensures ends { SoundCallsEnd }
{}
