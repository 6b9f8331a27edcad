//! Texts that aren't of the stored form, and bytes that are no JSON text.
use super::{BAD_SHAPE, NOT_JSON};
use crate::Stores;
use std::test::Fail;

/// JSON texts of another shape.
const OTHER: &[&str] = &[
    "null",
    "1",
    "\"form\"",
    "[]",
    "{}",
    r#"{"form":1}"#,
    r#"{"stores":[]}"#,
    r#"{"form":1,"stores":[],"more":1}"#,
    r#"{"Form":1,"stores":[]}"#,
    r#"{"form":2,"stores":[]}"#,
    r#"{"form":0,"stores":[]}"#,
    r#"{"form":-1,"stores":[]}"#,
    r#"{"form":1.0,"stores":[]}"#,
    r#"{"form":1e0,"stores":[]}"#,
    r#"{"form":"1","stores":[]}"#,
    r#"{"form":true,"stores":[]}"#,
    r#"{"form":1,"form":2,"stores":[]}"#,
    r#"{"form":1,"stores":{}}"#,
    r#"{"form":1,"stores":null}"#,
    r#"{"form":1,"stores":[],"stores":0}"#,
    r#"{"form":1,"stores":[null]}"#,
    r#"{"form":1,"stores":[[]]}"#,
    r#"{"form":1,"stores":[{}]}"#,
    r#"{"form":1,"stores":[{"namespace":"","values":{}}]}"#,
    r#"{"form":1,"stores":[{"name":"a","values":{}}]}"#,
    r#"{"form":1,"stores":[{"name":"a","namespace":""}]}"#,
    r#"{"form":1,"stores":[{"name":"a","namespace":"","values":{},"more":{}}]}"#,
    r#"{"form":1,"stores":[{"name":"a","namespace":"","Values":{}}]}"#,
    r#"{"form":1,"stores":[{"name":1,"namespace":"","values":{}}]}"#,
    r#"{"form":1,"stores":[{"name":"a","namespace":null,"values":{}}]}"#,
    r#"{"form":1,"stores":[{"name":"a","namespace":"","values":[]}]}"#,
    r#"{"form":1,"stores":[{"name":"a","namespace":"","values":null}]}"#,
    r#"{"form":1,"stores":[{"name":"a","namespace":"","values":{}},{"name":"a","namespace":"","values":{}}]}"#,
    r#"{"form":1,"stores":[{"name":"a","namespace":"n","values":{"k":1}},{"namespace":"n","name":"\u0061","values":{"j":2}}]}"#,
];

/// Values that aren't kept, in a script of the stored form.
const VALUES: &[&str] = &[
    "null",
    "[]",
    "{}",
    "1.0",
    "1e3",
    "1E0",
    "1.5",
    "-0",
    "0.0",
    "9007199254740992",
    "-9007199254740992",
    "9223372036854775807",
    "-9223372036854775808",
    "9223372036854775808",
    "18446744073709551615",
    "18446744073709551616",
    "123456789012345678901234567890",
];

/// No JSON texts.
const BROKEN: &[&str] = &[
    "",
    " \n",
    "{",
    r#"{"form":1,"#,
    r#"{"form":1,"stores":[]"#,
    r#"{"form":1,"stores":[]}x"#,
    r#"{"form":1,"stores":[]}{}"#,
    r#"{"form":1,"stores":[],}"#,
    r#"{"form":1,"stores":[,]}"#,
    r#"{"form" 1,"stores":[]}"#,
    r#"{form:1,"stores":[]}"#,
    r#"{'form':1,"stores":[]}"#,
    r#"{"form":01,"stores":[]}"#,
    r#"{"form":+1,"stores":[]}"#,
    r#"{"form":1.,"stores":[]}"#,
    r#"{"form":1e,"stores":[]}"#,
    r#"{"form":1e999,"stores":[]}"#,
    r#"{"form":NaN,"stores":[]}"#,
    r#"{"form":1,"stores":[]}//"#,
    "\u{feff}{\"form\":1,\"stores\":[]}",
    "\u{a0}{\"form\":1,\"stores\":[]}",
    "{\"form\":1,\"stores\":[]}\0",
    r#""\ud800""#,
    r#""\udc00""#,
    r#""\ud800\u0041""#,
    r#""\ud800\ud800""#,
    r#"{"\ud83d":1}"#,
    r#""\u12""#,
    r#""\x41""#,
    "\"\n\"",
    "\"\u{1f}\"",
    "tru",
];

#[test]
fn other_shapes(rt: HostRuntime) -> Result<(), Fail> {
    let alloc = rt.alloc();
    for text in OTHER {
        assert_eq!(rt;
            Stores::load(alloc, text.as_bytes()).err(),
            Some(BAD_SHAPE),
            "{text}"
        );
    }
    for value in VALUES {
        let text = format!(in alloc;
            "{{\"form\":1,\"stores\":[{{\"name\":\"a\",\"namespace\":\"\",\"values\":{{\"k\":{value}}}}}]}}"
        )?;
        assert_eq!(rt;
            Stores::load(alloc, text.as_bytes()).err(),
            Some(BAD_SHAPE),
            "{value}"
        );
    }
    Ok(())
}

#[test]
fn no_json(rt: HostRuntime) {
    for text in BROKEN {
        assert_eq!(rt;
            Stores::load(rt.alloc(), text.as_bytes()).err(),
            Some(NOT_JSON),
            "{text}"
        );
    }
    for bytes in [
        b"\"\xff\"".as_slice(),
        b"\"\xc3\"".as_slice(),
        b"\"\xc0\x80\"".as_slice(),
        b"\"\xed\xa0\x80\"".as_slice(),
        b"\"\xf4\x90\x80\x80\"".as_slice(),
        b"{\"form\":1,\"stores\":[]}\xff".as_slice(),
    ] {
        assert_eq!(rt; Stores::load(rt.alloc(), bytes).err(), Some(NOT_JSON));
    }
}
