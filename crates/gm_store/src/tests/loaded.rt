//! Texts of the stored form, what they keep, and the one text that it is written as.
use super::{Entry, Plain, count_beside, keeps};
use crate::Stores;
use std::alloc::Global;
use std::test::Fail;

/// The text that the loaded stores are written as, where they keep exactly these values.
fn written(alloc: Global, bytes: &[u8], entries: &[Entry]) -> Result<Option<Vec<u8>>, Fail> {
    let stores = Stores::load(alloc, bytes)?;
    for entry in entries {
        let beside = entries
            .iter()
            .filter(|e| e.0 == entry.0 && e.1 == entry.1)
            .count();
        if !keeps(alloc, &stores, *entry)? || count_beside(alloc, &stores, *entry)? != beside {
            return Ok(None);
        }
    }
    Ok(Some(stores.text()?))
}

const NONE: &str = r#"{"form":1,"stores":[]}"#;

const ONE: &str = r#"{"form":1,"stores":[{"name":"a","namespace":"","values":{"k":1}}]}"#;

const ONE_KEPT: &[Entry] = &[("", "a", "k", Plain::Number(1))];

/// Blanks, the order of members, keys that come twice and scripts without values change nothing.
const WAYS: &[(&str, &[Entry], &str)] = &[
    (NONE, &[], NONE),
    (ONE, ONE_KEPT, ONE),
    (" {\n\t\"stores\" : [ ] ,\r \"form\" : 1 }\n", &[], NONE),
    (r#"{"\u0066orm":1,"\u0073tores":[]}"#, &[], NONE),
    (r#"{"form":2,"form":1,"stores":[]}"#, &[], NONE),
    (r#"{"form":1,"stores":null,"stores":[]}"#, &[], NONE),
    (
        r#"{"form":1,"stores":[{"name":"a","namespace":"","values":{}}]}"#,
        &[],
        NONE,
    ),
    (
        r#"{"stores":[{"values":{"k":1},"namespace":"","name":"a"}],"form":1}"#,
        ONE_KEPT,
        ONE,
    ),
    (
        r#"{"form":1,"stores":[{"name":"b","name":"a","namespace":"","values":{"k":1}}]}"#,
        ONE_KEPT,
        ONE,
    ),
    (
        r#"{"form":1,"stores":[{"name":"a","namespace":"","values":[],"values":{"k":1}}]}"#,
        ONE_KEPT,
        ONE,
    ),
    (
        r#"{"form":1,"stores":[{"name":"a","namespace":"","values":{"k":1.5,"k":"x","\u006b":1}}]}"#,
        ONE_KEPT,
        ONE,
    ),
    (
        r#"{"form":1,"stores":[{"name":"a","namespace":"n","values":{}},{"name":"a","namespace":"","values":{"k":1}},{"name":"b","namespace":"","values":{}}]}"#,
        ONE_KEPT,
        ONE,
    ),
];

#[test]
fn ways_to_write_the_same(rt: HostRuntime) -> Result<(), Fail> {
    let alloc = rt.alloc();
    for (read, entries, one) in WAYS {
        let Some(text) = written(alloc, read.as_bytes(), entries)? else {
            panic!(rt; "another is kept: {read}");
        };
        assert!(rt; text.as_slice() == one.as_bytes(), "{read}");
    }
    Ok(())
}

/// The values of one script: what is read, what is kept of it, and what is written.
const VALUES: &[(&str, &[Entry], &str)] = &[
    ("\"k\":0", &[("", "a", "k", Plain::Number(0))], "\"k\":0"),
    ("\"k\":-1", &[("", "a", "k", Plain::Number(-1))], "\"k\":-1"),
    (
        "\"k\":9007199254740991",
        &[("", "a", "k", Plain::Number(9_007_199_254_740_991))],
        "\"k\":9007199254740991",
    ),
    (
        "\"k\":-9007199254740991",
        &[("", "a", "k", Plain::Number(-9_007_199_254_740_991))],
        "\"k\":-9007199254740991",
    ),
    (
        "\"t\":true , \"f\":false",
        &[
            ("", "a", "f", Plain::Bool(false)),
            ("", "a", "t", Plain::Bool(true)),
        ],
        "\"f\":false,\"t\":true",
    ),
    ("\"\":\"\"", &[("", "a", "", Plain::Str(""))], "\"\":\"\""),
    (
        r#""k":"\"\\\/\b\f\n\r\t""#,
        &[("", "a", "k", Plain::Str("\"\\/\u{8}\u{c}\n\r\t"))],
        r#""k":"\"\\/\b\f\n\r\t""#,
    ),
    (
        r#""k":"\u0000\u001F\u007f\u00e9\u2028""#,
        &[("", "a", "k", Plain::Str("\0\u{1f}\u{7f}é\u{2028}"))],
        "\"k\":\"\\u0000\\u001f\u{7f}é\u{2028}\"",
    ),
    (
        r#""k":"\ud83d\uDE00""#,
        &[("", "a", "k", Plain::Str("😀"))],
        "\"k\":\"😀\"",
    ),
    (
        "\"b\":1,\"é\":2,\"a\":3,\"Z\":4,\"\":5,\"ab\":6",
        &[
            ("", "a", "", Plain::Number(5)),
            ("", "a", "Z", Plain::Number(4)),
            ("", "a", "a", Plain::Number(3)),
            ("", "a", "ab", Plain::Number(6)),
            ("", "a", "b", Plain::Number(1)),
            ("", "a", "é", Plain::Number(2)),
        ],
        "\"\":5,\"Z\":4,\"a\":3,\"ab\":6,\"b\":1,\"é\":2",
    ),
    (
        r#""\ud800\udc00":1,"\uffff":2"#,
        &[
            ("", "a", "\u{ffff}", Plain::Number(2)),
            ("", "a", "\u{10000}", Plain::Number(1)),
        ],
        "\"\u{ffff}\":2,\"\u{10000}\":1",
    ),
    (
        "\"k\":\"1\",\"j\":\"true\",\"i\":\"null\"",
        &[
            ("", "a", "i", Plain::Str("null")),
            ("", "a", "j", Plain::Str("true")),
            ("", "a", "k", Plain::Str("1")),
        ],
        "\"i\":\"null\",\"j\":\"true\",\"k\":\"1\"",
    ),
];

#[test]
fn values_of_one_script(rt: HostRuntime) -> Result<(), Fail> {
    let alloc = rt.alloc();
    let head = "{\"form\":1,\"stores\":[{\"name\":\"a\",\"namespace\":\"\",\"values\":{";
    let end = "}}]}";
    for (read, entries, one) in VALUES {
        let read = format!(in alloc; "{head}{read}{end}")?;
        let one = format!(in alloc; "{head}{one}{end}")?;
        for bytes in [read.as_bytes(), one.as_bytes()] {
            let Some(text) = written(alloc, bytes, entries)? else {
                panic!(rt; "another is kept: {read}");
            };
            assert!(rt; text.as_slice() == one.as_bytes(), "{read}");
        }
    }
    Ok(())
}

/// Scripts are told apart by namespace and name, and written by namespace and then by name.
#[test]
fn scripts_are_in_byte_order(rt: HostRuntime) -> Result<(), Fail> {
    let alloc = rt.alloc();
    let read = r#"{"form":1,"stores":[
        {"name":"b","namespace":"n","values":{"k":1}},
        {"name":"é","namespace":"","values":{"k":2}},
        {"name":"","namespace":"","values":{"k":3}},
        {"name":"b","namespace":"","values":{"k":4}},
        {"name":"a","namespace":"n","values":{"k":5}},
        {"name":"a","namespace":"b","values":{"k":6}},
        {"name":"n","namespace":"b","values":{"k":"b"}}]}"#;
    let entries = [
        ("n", "b", "k", Plain::Number(1)),
        ("", "é", "k", Plain::Number(2)),
        ("", "", "k", Plain::Number(3)),
        ("", "b", "k", Plain::Number(4)),
        ("n", "a", "k", Plain::Number(5)),
        ("b", "a", "k", Plain::Number(6)),
        ("b", "n", "k", Plain::Str("b")),
    ];
    let one =
        r#"{"form":1,"stores":[{"name":"","namespace":"","values":{"k":3}},{"name":"b","namespace":"","values":{"k":4}},{"name":"é","namespace":"","values":{"k":2}},{"name":"a","namespace":"b","values":{"k":6}},{"name":"n","namespace":"b","values":{"k":"b"}},{"name":"a","namespace":"n","values":{"k":5}},{"name":"b","namespace":"n","values":{"k":1}}]}"#;
    for bytes in [read.as_bytes(), one.as_bytes()] {
        let text = written(alloc, bytes, entries.as_slice())?;
        assert!(rt; text.is_some_and(|t| t.as_slice() == one.as_bytes()));
    }
    Ok(())
}
