//! Texts of predicates that are sent, and texts that are none.

use crate::read_sent;
use abc_lexer::Names;
use abc_pred::{Name, Operand, Pred};
use std::alloc::Global;
use std::process::Abort;
use std::test::Fail;

/// Texts of predicates that are sent.
const SENT: [&[u8]; 6] = [
    b"tt",
    b"role = \"b\"",
    b"not n < free(used) - 1",
    b"n in {-1, \"x\", true} and [ff or a * (b + 1) = none]",
    b"a = b and c = d and e = f",
    b"size(s) < 9223372036854775807",
];

/// Texts that are none: of no predicate, of one that isn't closed, or not as it is printed.
const NONE: [&[u8]; 14] = [
    b"",
    b"role",
    b"this.a = 1",
    b"$x = 1",
    b"a = 1 or this.b = 2",
    b"a=1",
    b"a = 1 ",
    b"a = 01",
    b"[a = 1]",
    b"a = {2, 1}",
    b"a = 1 # b",
    b"a = 1 and",
    b"a = 1 %",
    b"def = 1",
];

/// Whether a text is that of a predicate that is sent, where no word has a number before.
fn is_sent(rt: &impl Abort, alloc: Global, text: &[u8]) -> Result<bool, Fail> {
    assert!(rt; text.len() < 1000);
    let mut names = Names::new(alloc);
    Ok(read_sent(alloc, text, &mut names)?.is_some())
}

#[test]
fn what_is_sent(rt: HostRuntime) -> Result<(), Fail> {
    for text in SENT {
        assert!(rt; is_sent(&rt, rt.alloc(), text)?, "{text:?}");
    }
    for text in NONE {
        assert!(rt; !is_sent(&rt, rt.alloc(), text)?, "{text:?}");
    }
    Ok(())
}

#[test]
fn names_go_on(rt: HostRuntime) -> Result<(), Fail> {
    let mut names = Names::new(rt.alloc());
    names.number(b"b")?;
    let found = read_sent(rt.alloc(), b"a < b", &mut names)?;
    assert!(rt;
        matches!(
            &found,
            Some(Pred::Less(Operand::Attr(Name(1)), Operand::Attr(Name(0))))
        )
    );
    assert_eq!(rt; names.words().len(), 2);
    Ok(())
}
