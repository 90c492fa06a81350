//! The lines at offsets of a file.
use super::FaultyLine;

/// Three lines, of which the last begins at 16.
const FILE: &[u8] = b"# c\nn1 v1 x1 y1\nn77 v1 x1\n";

#[test]
fn lines_have_numbers_and_objects(rt: HostRuntime) {
    for (place, found) in [
        (0, Some((1, "#"))),
        (4, Some((2, "n1"))),
        (16, Some((3, "n77"))),
        (26, Some((4, ""))),
        (27, None),
    ] {
        let mut file = FILE;
        let line = FaultyLine::read(&mut file, place);
        let line = line.as_ref().map(|line| (line.number, line.object()));
        assert_eq!(rt; line, found);
    }
}
