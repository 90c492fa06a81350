//! Names of OUT.part.
use super::{Place, folder_of, last_of};

#[test]
fn names_have_a_folder_and_a_last_part(rt: HostRuntime) {
    for (name, folder, last) in [
        ("x", ".", "x"),
        ("./x", ".", "x"),
        ("/x", "/", "x"),
        ("a/b/x", "a/b", "x"),
        ("a/", "a", ""),
    ] {
        assert!(rt; (folder_of(name), last_of(name)) == (folder, last));
    }
}

#[test]
fn out_part_is_found_by_its_folder(rt: HostRuntime) {
    for (part, part_folder, output, folder, is_part) in [
        ("x.part", Some(1), "x", Some(1), true),
        ("./x.part", Some(1), "a/../x", Some(1), true),
        ("x.part", Some(1), "a/x", Some(2), false),
        ("x", Some(1), "x.part", Some(1), false),
        ("x", Some(1), "x", Some(1), false),
        ("gone/x.part", None, "gone/x", None, true),
        ("gone/x.part", None, "away/x", None, false),
        ("x.part", None, "x", Some(1), false),
    ] {
        let (place, other) = (Place::new(part, part_folder), Place::new(output, folder));
        assert!(rt; place.is_part_of(&other) == is_part);
    }
}
