use crate::{parts, two_parts};
use edge_base::Refusal;

#[test]
fn lends_the_names_in_order(rt: HostRuntime) {
    assert!(rt; parts(b"/", 12).is_ok_and(|mut names| names.next().is_none()));
    let two = parts(b"/ab/c", 12);
    assert!(rt; two.is_ok_and(|names| names.map(|name| name.len()).eq([2usize, 1])));
}

#[test]
fn refuses_what_no_path_is(rt: HostRuntime) {
    let refused: [(&str, Refusal); 8] = [
        ("", Refusal::Invalid),
        ("a", Refusal::Invalid),
        ("//", Refusal::Invalid),
        ("/a/", Refusal::Invalid),
        ("/a//b", Refusal::Invalid),
        ("/.", Refusal::Invalid),
        ("/abcd/..", Refusal::Invalid),
        ("/abcd", Refusal::NameTooLong),
    ];
    for (path, why) in refused {
        assert!(rt;
            parts(path.as_bytes(), 3).is_err_and(|e| e == why),
            "of {path}"
        );
    }
    assert!(rt; two_parts(b"/abcd", b"/.", 3).is_err_and(|e| e == Refusal::Invalid));
}
