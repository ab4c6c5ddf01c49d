use super::*;
use std::alloc::Global;
use std::test::Fail;

fn written(alloc: Global, v: View<'_>) -> Result<List<u8>, NoMemory> {
    let mut text = List::new(alloc);
    write_value(alloc, v, &mut text)?;
    Ok(text)
}

fn numbers(alloc: Global, from: &[i64]) -> Result<Value, NoMemory> {
    let mut items = Vec::new(alloc);
    for n in from {
        items.push(Value::Scalar(Scalar::Number(*n)))?;
    }
    set_of(alloc, items.as_slice())
}

fn first_numbers(alloc: Global, count: i64) -> Result<Value, NoMemory> {
    let mut items = Vec::new(alloc);
    for n in 0..count {
        items.push(Value::Scalar(Scalar::Number(n)))?;
        items.push(Value::Scalar(Scalar::Number(n)))?;
    }
    set_of(alloc, items.as_slice())
}

/// Takes what may cross threads.
fn crosses<T: Send + Sync>(_value: &T) {}

#[test]
fn operators_on_sets(rt: HostRuntime) -> Result<(), Fail> {
    let alloc = rt.alloc();
    let b = ShortText::from_bytes(b"b").ok_or("a text")?;
    let mut items = Vec::new(alloc);
    items.push(Value::Scalar(Scalar::Number(3)))?;
    items.push(Value::Scalar(Scalar::Text(b)))?;
    items.push(Value::Scalar(Scalar::Number(1)))?;
    items.push(Value::Scalar(Scalar::Truth(true)))?;
    items.push(Value::Scalar(Scalar::Number(1)))?;
    let set = set_of(alloc, items.as_slice())?;
    let text = written(alloc, set.view())?;
    assert_eq!(rt; text.as_slice(), b"{1, 3, \"b\", true}".as_slice());
    let two = numbers(alloc, &[2])?;
    let text = written(alloc, union(alloc, set.view(), two.view())?.view())?;
    assert_eq!(rt; text.as_slice(), b"{1, 2, 3, \"b\", true}".as_slice());
    let three = numbers(alloc, &[3])?;
    let text = written(alloc, without(alloc, set.view(), three.view())?.view())?;
    assert_eq!(rt; text.as_slice(), b"{1, \"b\", true}".as_slice());
    let holed = numbers(alloc, &[3, 0, 1])?;
    assert_eq!(rt; least_free(holed.view()), Some(2));
    let copy = holed.view().to_value(alloc)?;
    assert!(rt; same(copy.view(), holed.view()), "a copy is the same value");
    let owner = Owner::new(alloc, copy)?;
    let other = owner.copy()?;
    drop(owner);
    assert!(rt;
        same(other.get().view(), holed.view()),
        "an owner keeps the value"
    );
    crosses(&other);
    crosses(&Grant::Closed);
    crosses(&holed);
    crosses(&holed.view());
    crosses(&text);
    crosses(&b);
    crosses(&NoMemory);
    crosses(&ValueRefusal::Bad);
    Ok(())
}

#[test]
fn limits_of_sets(rt: HostRuntime) -> Result<(), Fail> {
    let alloc = rt.alloc();
    let full = first_numbers(alloc, 256)?;
    assert_eq!(rt; size(full.view()), Some(256));
    let over = first_numbers(alloc, 257)?;
    assert_eq!(rt; size(over.view()), None, "257 distinct scalars are no set");
    let last = numbers(alloc, &[256])?;
    assert_eq!(rt; size(union(alloc, full.view(), last.view())?.view()), None);
    let mut text = written(alloc, full.view())?;
    let (again, length) = read_value(alloc, text.as_slice())?;
    assert!(rt;
        same(again.view(), full.view()),
        "a set of 256 is read back"
    );
    assert_eq!(rt; length, text.len());
    let _ = text.pop();
    text.extend_from_slice(b", 256}")?;
    assert_eq!(rt;
        read_value(alloc, text.as_slice()).err(),
        Some(ValueRefusal::Bad)
    );
    Ok(())
}

/// Bytes, and how many of them are the literal that is read; 0 where none is.
const READ: [(&[u8], usize); 62] = [
    (b"0", 1),
    (b"1", 1),
    (b"10", 2),
    (b"-1", 2),
    (b"-10 ", 3),
    (b"007", 1),
    (b"-0", 0),
    (b"-01", 0),
    (b"-", 0),
    (b"+1", 0),
    (b"12x", 2),
    (b"1.5", 1),
    (b"9223372036854775807", 19),
    (b"9223372036854775808", 18),
    (b"-9223372036854775808", 20),
    (b"-9223372036854775809", 19),
    (b"92233720368547758070", 19),
    (b"99999999999999999999999", 18),
    (b"true", 4),
    (b"truex", 4),
    (b"tru", 0),
    (b"false", 5),
    (b"False", 0),
    (b"none", 4),
    (b"nonex", 4),
    (b"non", 0),
    (b"", 0),
    (b" 1", 0),
    (b"x", 0),
    (b"\"\"", 2),
    (b"\"a b\"", 5),
    (b"\"a\"b", 3),
    (b"\"a", 0),
    (b"\"", 0),
    (b"\"\\\"\"", 4),
    (b"\"\\\\\"", 4),
    (b"\"\\\\\\\"\"x", 6),
    (b"\"\\n\"", 0),
    (b"\"\\", 0),
    (b"\"\x1f\"", 0),
    (b"\"\x7f\"", 0),
    (b"\" ~\"", 4),
    (b"{}", 2),
    (b"{}}", 2),
    (b"{", 0),
    (b"{ }", 0),
    (b"{1}", 3),
    (b"{1", 0),
    (b"{1,2}", 0),
    (b"{1, 2}", 6),
    (b"{1,  2}", 0),
    (b"{2, 1}", 0),
    (b"{1, 1}", 0),
    (b"{1, }", 0),
    (b"{01}", 0),
    (b"{-1, 0, \"\", \"a\", \"aa\", \"b\", false, true}", 40),
    (b"{true, false}", 0),
    (b"{\"a\", 1}", 0),
    (b"{\"b\", \"aa\"}", 0),
    (b"{none}", 0),
    (b"{{}}", 0),
    (b"{1, 3}x", 6),
];

#[test]
fn literals(rt: HostRuntime) -> Result<(), Fail> {
    let alloc = rt.alloc();
    for (bytes, wanted) in READ {
        match read_value(alloc, bytes) {
            Ok((value, length)) => {
                assert_eq!(rt; length, wanted, "the length read of {bytes:?}");
                let text = written(alloc, value.view())?;
                assert!(rt;
                    bytes.starts_with(text.as_slice()),
                    "{text:?} is read of {bytes:?}"
                );
                assert_eq!(rt; text.len(), length, "{text:?} is written again");
            }
            Err(refusal) => {
                assert_eq!(rt; wanted, 0, "{bytes:?} is refused");
                assert_eq!(rt; refusal, ValueRefusal::Bad);
            }
        }
    }
    Ok(())
}

#[test]
fn limits_of_texts(rt: HostRuntime) -> Result<(), Fail> {
    let alloc = rt.alloc();
    assert!(rt;
        ShortText::from_bytes(&[b'a'; 65]).is_none(),
        "65 bytes are no text"
    );
    let long = ShortText::from_bytes(&[b'"'; 64]).ok_or("64 bytes are a text")?;
    let mut text = written(alloc, View::Text(&long))?;
    assert_eq!(rt; text.len(), 130);
    let (again, length) = read_value(alloc, text.as_slice())?;
    assert!(rt;
        same(again.view(), View::Text(&long)),
        "a text of 64 bytes is read back"
    );
    assert_eq!(rt; length, 130);
    let _ = text.pop();
    text.push(b'a')?;
    text.push(b'"')?;
    assert_eq!(rt;
        read_value(alloc, text.as_slice()).err(),
        Some(ValueRefusal::Bad)
    );
    Ok(())
}
