//! Calls each public function once, and compares its results with values worked out by hand.
use crate::rank::Rank;
use crate::version::first_fault;
use crate::{
    Body, History, Item, Key, Kind, Member, Members, Memory, Meta, Object, Parts, Ranked,
    References, Spare, Tag, Tags, Text, ValueFault, Version, is_id, strip_escaped,
};
use std::alloc::{AllocError, Global};
use std::cmp::Ordering;
use std::test::Fail;

/// The fields after the tags, which determine the kind.
#[derive(Clone, Copy)]
enum Shape {
    Deleted(Kind),
    /// The location of a node in units of 10^-7 degree.
    Location(i32, i32),
    /// The references of a way.
    References(&'static [i64]),
    /// The ids and the roles of a relation's members, which are nodes.
    Members(&'static [(i64, &'static str)]),
}

/// Keys with their values.
type Pairs = &'static [(&'static str, &'static str)];

/// The fields of a version.
#[derive(Clone, Copy)]
struct Fields {
    id: i64,
    number: u64,
    changeset: u64,
    time: Option<u64>,
    uid: u64,
    user: &'static str,
    tags: Pairs,
    shape: Shape,
}

/// The version 1 of a node 1 at 0, 0, without an author and tags.
const NODE: Fields = Fields {
    id: 1,
    number: 1,
    changeset: 0,
    time: None,
    uid: 0,
    user: "",
    tags: &[],
    shape: Shape::Location(0, 0),
};

/// The same node with an author without a name.
const AUTHORED: Fields = Fields {
    changeset: 1,
    time: Some(1),
    uid: 1,
    ..NODE
};

/// The version 1 of a deleted way 1, without an author.
const DELETED_WAY: Fields = Fields {
    shape: Shape::Deleted(Kind::Way),
    ..NODE
};

/// The relation of the test `canonical_texts`.
const TEXTS: Fields = Fields {
    id: 7,
    number: 1,
    changeset: 1,
    time: Some(1),
    uid: 1,
    user: "a b",
    tags: &[("\u{1f600}", "="), ("é", "1")],
    shape: Shape::Members(&[(1, "€")]),
};

/// A location at the degrees 1, 1.
const HERE: Shape = Shape::Location(10_000_000, 10_000_000);

/// The first id and reference above the range of ids.
const BEYOND: i64 = 1 << 62;

/// The version 1 of an object 1 without tags and an author.
fn shaped(shape: Shape) -> Fields {
    Fields { shape, ..NODE }
}

/// The version 1 of a node at a location in units of 10^-7 degree.
fn at(id: i64, lon: i32, lat: i32) -> Fields {
    let shape = Shape::Location(lon, lat);
    Fields { id, shape, ..NODE }
}

fn numbered(id: i64, number: u64) -> Fields {
    Fields { id, number, ..NODE }
}

/// The version of a node 1 at 0, 0, without tags.
fn written(number: u64, time: Option<u64>, changeset: u64, uid: u64, user: &'static str) -> Fields {
    Fields {
        number,
        time,
        changeset,
        uid,
        user,
        ..NODE
    }
}

fn text(alloc: Global, characters: &str) -> Result<Text, Fail> {
    Ok(Text::from_str(alloc, characters)?)
}

fn tag(alloc: Global, (key, value): (&str, &str)) -> Result<Tag, Fail> {
    Ok(Tag {
        key: text(alloc, key)?,
        value: text(alloc, value)?,
    })
}

fn tags(alloc: Global, pairs: &[(&str, &str)]) -> Result<Tags, Fail> {
    let mut tags = Vec::new(alloc);
    for pair in pairs {
        tags.push(tag(alloc, *pair)?)?;
    }
    Ok(Tags::from_vec(tags))
}

fn references(alloc: Global, ids: &[i64]) -> Result<References, Fail> {
    let mut list = Vec::new(alloc);
    list.extend_from_slice(ids)?;
    Ok(References::from_vec(list))
}

fn member(alloc: Global, (id, role): (i64, &str)) -> Result<Member, Fail> {
    Ok(Member {
        kind: Kind::Node,
        id,
        role: text(alloc, role)?,
    })
}

fn members(alloc: Global, pairs: &[(i64, &str)]) -> Result<Members, Fail> {
    let mut members = Vec::new(alloc);
    for pair in pairs {
        members.push(member(alloc, *pair)?)?;
    }
    Ok(Members::from_vec(members))
}

fn body(alloc: Global, fields: Fields) -> Result<Body, Fail> {
    let tags = tags(alloc, fields.tags)?;
    Ok(match fields.shape {
        Shape::Deleted(kind) => Body::Deleted(kind),
        Shape::Location(lon, lat) => Body::Node { lon, lat, tags },
        Shape::References(ids) => Body::Way {
            refs: references(alloc, ids)?,
            tags,
        },
        Shape::Members(pairs) => Body::Relation {
            members: members(alloc, pairs)?,
            tags,
        },
    })
}

fn meta(alloc: Global, fields: Fields) -> Result<Meta, Fail> {
    Ok(Meta {
        version: fields.number,
        time: fields.time,
        changeset: fields.changeset,
        uid: fields.uid,
        user: text(alloc, fields.user)?,
    })
}

fn version(alloc: Global, fields: Fields) -> Result<Version, Fail> {
    let meta = meta(alloc, fields)?;
    Ok(Version::new(alloc, fields.id, meta, body(alloc, fields)?)?)
}

fn versions(alloc: Global, rows: &[Fields]) -> Result<Vec<Version>, Fail> {
    let mut versions = Vec::new(alloc);
    for fields in rows {
        versions.push(version(alloc, *fields)?)?;
    }
    Ok(versions)
}

/// Whether `append_line` appends `line` to a buffer.
fn appends(alloc: Global, version: &Version, line: &str) -> Result<bool, Fail> {
    let mut out = vec![in alloc; b'>']?;
    version.append_line(&mut out)?;
    Ok(out[0] == b'>' && &out[1..] == line.as_bytes())
}

#[test]
fn a_version_shows_its_data(rt: HostRuntime) -> Result<(), Fail> {
    let v = version(rt.alloc(), TEXTS)?;
    assert_eq!(rt; (v.id(), v.number(), v.changeset(), v.uid()), (7, 1, 1, 1));
    assert_eq!(rt; (v.kind(), v.time()), (Kind::Relation, Some(1)));
    assert_eq!(rt; v.user().as_str(), "a b");
    Ok(())
}

#[test]
fn a_version_shows_its_body(rt: HostRuntime) -> Result<(), Fail> {
    let v = version(rt.alloc(), TEXTS)?;
    assert_eq!(rt;
        (v.body().kind(), v.body().is_deleted()),
        (Kind::Relation, false)
    );
    assert_eq!(rt; v.body().tags().len(), 2);
    Ok(())
}

#[test]
fn a_copy_is_equal(rt: HostRuntime) -> Result<(), Fail> {
    let v = version(rt.alloc(), TEXTS)?;
    assert_eq!(rt; v.copy()?, v);
    Ok(())
}

/// Whether a text of these characters and all of `more` after them is `whole`.
fn grows_to(alloc: Global, characters: &str, more: &[&str], whole: &str) -> Result<bool, Fail> {
    let mut grown = text(alloc, characters)?;
    for characters in more {
        grown.push_str(alloc, characters)?;
    }
    Ok(grown.as_str() == whole)
}

#[test]
fn texts_grow(rt: HostRuntime) -> Result<(), Fail> {
    for (more, whole) in [
        ([", ü", ""], "short, ü"),
        (
            [", ü", ", and longer than lies within"],
            "short, ü, and longer than lies within",
        ),
    ] {
        assert!(rt; grows_to(rt.alloc(), "short", &more, whole)?);
    }
    Ok(())
}

#[test]
fn characters_are_known_again(rt: HostRuntime) {
    assert_eq!(rt; strip_escaped(b"%20%x", ' '), Some(b"x".as_slice()));
    assert_eq!(rt; strip_escaped(b"ab", 'a'), Some(b"b".as_slice()));
    assert!(rt; strip_escaped(b"%2C%", ',').is_none());
}

/// Whether a text and its copy show these characters.
fn shows(text: &Text, characters: &str) -> Result<bool, Fail> {
    Ok(
        text.as_str() == characters
            && text.is_empty() == characters.is_empty()
            && text.copy()?.as_str() == characters,
    )
}

#[test]
fn texts_of_any_length(rt: HostRuntime) -> Result<(), Fail> {
    let alloc = rt.alloc();
    for characters in [
        "",
        "é",
        "as many as lie within it",
        "one more than lies within",
        "Ein Text, der nicht in vierundzwanzig Bytes passt, mit größeren Zeichen: 東京",
    ] {
        assert!(rt; shows(&text(alloc, characters)?, characters)?);
        let string = Text::from_string(String::from_str(alloc, characters)?);
        assert!(rt; shows(&string, characters)?);
    }
    Ok(())
}

/// The version 2 of a deleted way 7, by `Version::from_checked_data`.
fn sound_way(alloc: Global) -> Result<Version, Fail> {
    let mut meta = Meta::blank();
    meta.version = 2;
    let (mut spare, body) = (Spare::new(alloc), Body::Deleted(Kind::Way));
    Ok(Version::from_checked_data(alloc, &mut spare, 7, meta, body)?)
}

/// Whether a version has these fields.
fn has_fields(alloc: Global, found: &Version, fields: Fields) -> Result<bool, Fail> {
    Ok(*found == version(alloc, fields)? && found.kind() == found.body().kind())
}

#[test]
fn sound_data(rt: HostRuntime) -> Result<(), Fail> {
    let fields = Fields {
        id: 7,
        number: 2,
        ..DELETED_WAY
    };
    assert!(rt; has_fields(rt.alloc(), &sound_way(rt.alloc())?, fields)?);
    Ok(())
}

/// A `Spare` that got the version of some fields.
fn spare_of(alloc: Global, fields: Fields) -> Result<Spare, Fail> {
    let version = version(alloc, fields)?;
    let mut spare = Spare::new(alloc);
    spare.put(version);
    Ok(spare)
}

/// The version 1 of a node 9 with one tag, in the memory of `spare`.
fn node_in_memory(alloc: Global, spare: &mut Spare) -> Result<Version, Fail> {
    let mut tags = spare.take_tags();
    tags.push(tag(alloc, ("e", "f"))?)?;
    let tags = Tags::from_vec(tags);
    let (lon, lat) = (-5, 6);
    let (meta, body) = (meta(alloc, NODE)?, Body::Node { lon, lat, tags });
    if let Some(fault) = first_fault(9, &meta, &body) {
        return Err(Fail::from(fault));
    }
    Ok(Version::from_checked_data(alloc, spare, 9, meta, body)?)
}

#[test]
fn memory_of_a_version_is_used_again(rt: HostRuntime) -> Result<(), Fail> {
    let alloc = rt.alloc();
    let way = Fields {
        id: 7,
        number: 2,
        tags: &[("c", "d"), ("a", "b")],
        shape: Shape::References(&[3, -1, 3]),
        ..NODE
    };
    let node = Fields {
        id: 9,
        tags: &[("e", "f")],
        shape: Shape::Location(-5, 6),
        ..NODE
    };
    let mut spare = spare_of(alloc, way)?;
    assert!(rt; has_fields(alloc, &node_in_memory(alloc, &mut spare)?, node)?);
    assert!(rt; spare.take_references().capacity() >= 3);
    Ok(())
}

/// A way of `count` references in a list that has memory for `capacity`.
fn way_in_memory(alloc: Global, capacity: usize, count: usize) -> Result<Version, Fail> {
    let mut list = Vec::with_capacity(alloc, capacity)?;
    for _reference in 0..count {
        list.push(7)?;
    }
    let (refs, tags) = (References::from_vec(list), Tags::from_vec(Vec::new(alloc)));
    let meta = meta(alloc, NODE)?;
    Ok(Version::new(alloc, 1, meta, Body::Way { refs, tags })?)
}

/// What a `Spare` does with the list of a way that has memory for `capacity` references.
fn spare_memory(alloc: Global, way: Version, capacity: usize) -> &'static str {
    let mut spare = Spare::new(alloc);
    spare.put(way);
    let is_kept = spare.take_references().capacity() >= capacity;
    if is_kept { "kept" } else { "freed" }
}

#[test]
fn memory_far_above_the_need_is_freed(rt: HostRuntime) -> Result<(), Fail> {
    let alloc = rt.alloc();
    for (capacity, count, outcome) in [
        (1024, 1, "kept"),
        (1025, 1, "freed"),
        (4096, 1023, "freed"),
        (4096, 1024, "kept"),
        (32_000, 5, "freed"),
        (32_000, 32_000, "kept"),
    ] {
        let way = way_in_memory(alloc, capacity, count)?;
        assert_eq!(rt; spare_memory(alloc, way, capacity), outcome);
    }
    Ok(())
}

/// Fills parts in place: a deleted way 7, version 2 at the time 9 by `name`. Other users and a body come first.
fn fill(alloc: Global, parts: &mut Parts, name: &Text) -> Result<(), Fail> {
    parts.id = 7;
    parts.meta.version = 2;
    parts.meta.time = Some(9);
    parts.meta.user.overwrite(text(alloc, "a first user")?);
    name.copy_into(&mut parts.meta.user)?;
    name.copy_into(&mut parts.meta.user)?;
    let other = Fields {
        shape: Shape::References(&[3, -1]),
        ..NODE
    };
    parts.body.overwrite(body(alloc, other)?);
    parts.body.overwrite(Body::Deleted(Kind::Way));
    Ok(())
}

/// The version of the parts that `fill` fills.
fn filled(alloc: Global, name: &Text) -> Result<Version, Fail> {
    let mut parts = Parts::recycled_or_new(alloc, &mut Spare::new(alloc))?;
    fill(alloc, &mut parts, name)?;
    if let Some(fault) = first_fault(parts.id, &parts.meta, &parts.body) {
        return Err(Fail::from(fault));
    }
    Ok(Version::from_checked_parts(parts))
}

#[test]
fn parts_are_filled_in_place(rt: HostRuntime) -> Result<(), Fail> {
    let alloc = rt.alloc();
    let user = "a name that is longer than 24 bytes";
    let fields = Fields {
        id: 7,
        number: 2,
        time: Some(9),
        user,
        ..DELETED_WAY
    };
    let way = filled(alloc, &text(alloc, user)?)?;
    assert!(rt; has_fields(alloc, &way, fields)?);
    Ok(())
}

#[test]
fn tags_are_a_list(rt: HostRuntime) -> Result<(), Fail> {
    let tags = tags(rt.alloc(), &[("a", "b")])?;
    assert_eq!(rt; tags.as_slice().len(), 1);
    for tag in tags.copy()?.into_vec().as_slice() {
        assert_eq!(rt; tag.copy()?.value.as_str(), "b");
    }
    Ok(())
}

#[test]
fn members_are_a_list(rt: HostRuntime) -> Result<(), Fail> {
    let members = members(rt.alloc(), &[(5, "outer")])?;
    assert_eq!(rt; members.as_slice().len(), 1);
    for member in members.copy()?.into_vec().as_slice() {
        assert_eq!(rt; member.copy()?.role.as_str(), "outer");
    }
    Ok(())
}

#[test]
fn small_parts_are_copied(rt: HostRuntime) -> Result<(), Fail> {
    let ada = written(1, Some(1), 1, 1, "ada");
    assert_eq!(rt; meta(rt.alloc(), ada)?.copy()?.user.as_str(), "ada");
    assert!(rt; matches!(Body::Deleted(Kind::Way).copy()?, Body::Deleted(Kind::Way)));
    Ok(())
}

#[test]
fn ids_have_limits(rt: HostRuntime) {
    for (id, is_one) in [(BEYOND - 1, true), (-BEYOND, false)] {
        assert_eq!(rt; is_id(id), is_one);
    }
}

fn fault(alloc: Global, fields: Fields) -> Result<Option<ValueFault>, Fail> {
    let meta = meta(alloc, fields)?;
    Ok(Version::new(alloc, fields.id, meta, body(alloc, fields)?).err())
}

#[test]
fn faults_in_their_order(rt: HostRuntime) -> Result<(), Fail> {
    for (fields, first) in [
        (numbered(BEYOND, 0), ValueFault::IdRange),
        (
            shaped(Shape::References(&[1, -BEYOND])),
            ValueFault::IdRange,
        ),
        (shaped(Shape::Members(&[(BEYOND, "")])), ValueFault::IdRange),
        (written(0, None, 1 << 32, 0, ""), ValueFault::NoVersion),
        (written(1, Some(0), 0, 1 << 32, ""), ValueFault::NumberRange),
        (written(1, Some(0), 0, 0, "\0"), ValueFault::TimeRange),
        (written(1, Some(1 << 32), 0, 0, ""), ValueFault::TimeRange),
        (written(1, None, 0, 0, "\0"), ValueFault::NoTime),
        (written(1, Some(1), 0, 0, "\0"), ValueFault::ZeroInText),
        (shaped(Shape::Members(&[(1, "\0")])), ValueFault::ZeroInText),
    ] {
        assert_eq!(rt; fault(rt.alloc(), fields)?, Some(first));
    }
    Ok(())
}

/// Versions and their lines.
const LINES: [(Fields, &str); 4] = [
    // the last time
    (
        Fields {
            time: Some(4_294_967_295),
            shape: Shape::Deleted(Kind::Way),
            ..AUTHORED
        },
        "w1 v1 dD c1 t2106-02-07T06:28:15Z i1 u T N",
    ),
    // tags are a set
    (
        Fields {
            id: -3,
            number: 2,
            tags: &[("b", "2"), ("a", "1"), ("b", "1"), ("a", "1")],
            shape: Shape::References(&[1, -2, 1]),
            ..NODE
        },
        "w-3 v2 dV c0 t i0 u Ta=1,b=1,b=2 Nn1,n-2,n1",
    ),
    // a node without tags, by a user whose name is plain
    (
        Fields {
            user: "as_many_as_lie_within_it",
            shape: Shape::Location(95_400_001, -5_000_000),
            ..AUTHORED
        },
        "n1 v1 dV c1 t1970-01-01T00:00:01Z i1 uas_many_as_lie_within_it T x9.5400001 y-0.5",
    ),
    // a deleted version has all fields
    (
        Fields {
            shape: Shape::Deleted(Kind::Relation),
            ..NODE
        },
        "r1 v1 dD c0 t i0 u T M",
    ),
];

#[test]
fn versions_have_lines(rt: HostRuntime) -> Result<(), Fail> {
    for (fields, line) in LINES {
        assert!(rt; appends(rt.alloc(), &version(rt.alloc(), fields)?, line)?);
    }
    Ok(())
}

#[test]
fn canonical_texts(rt: HostRuntime) -> Result<(), Fail> {
    let v = version(rt.alloc(), TEXTS)?;
    let expected =
        "r7 v1 dV c1 t1970-01-01T00:00:01Z i1 ua%20%b Té=1,%1f600%=%3d% Mn1@%20ac%".as_bytes();
    let bytes = v.line_bytes().collect::<Vec<u8>>(rt.alloc())?;
    assert_eq!(rt; bytes.as_slice(), expected);
    Ok(())
}

#[test]
fn a_line_is_given_in_runs(rt: HostRuntime) -> Result<(), Fail> {
    let v = version(rt.alloc(), DELETED_WAY)?;
    let mut bytes = v.line_bytes();
    assert!(rt; bytes.advance());
    assert_eq!(rt; bytes.chunk(), b"w1 v1 dD c0 t i0 u".as_slice());
    assert!(rt; bytes.advance());
    assert_eq!(rt; bytes.chunk(), b" T".as_slice());
    Ok(())
}

fn tagged(tags: Pairs) -> Fields {
    Fields {
        tags,
        shape: HERE,
        ..NODE
    }
}

/// Versions in ascending order: nodes, ways, relations. A comment names the rule that puts a version after the one
/// before.
fn ascending() -> [Fields; 17] {
    [
        at(-1, 0, 0),
        // ids that aren't above 0 come before the others, by their absolute value
        at(-3, 0, 0),
        // in a line, a space is below a point
        at(1, 10_000_000, 10_000_000),
        at(1, 15_000_000, 10_000_000),
        // `x10` comes before `x9`
        at(1, 100_000_000, 10_000_000),
        at(1, 90_000_000, 10_000_000),
        // in a line, the `%` of an escape is below the bytes of `é`
        tagged(&[("\u{1f600}", "1")]),
        tagged(&[("é", "1")]),
        // a visible version comes before a deleted one
        shaped(Shape::Deleted(Kind::Node)),
        // a deleted version without a time comes before a visible one with a time
        AUTHORED,
        numbered(1, 2),
        numbered(3, 1),
        // a line comes before its extensions
        shaped(Shape::References(&[])),
        shaped(Shape::References(&[1])),
        DELETED_WAY,
        Fields {
            id: 7,
            ..shaped(Shape::Members(&[(1, "")]))
        },
        TEXTS,
    ]
}

/// Whether every comparison of two versions returns `order`.
fn compare(left: &Version, right: &Version, order: Ordering) -> bool {
    left.cmp(right) == order
        && (left == right) == order.is_eq()
        && left.partial_cmp(right) == Some(order)
}

/// Comparisons allocate nothing: the test also passes if each allocation fails that comes after `versions`.
#[test]
fn versions_are_ordered(rt: HostRuntime) -> Result<(), Fail> {
    let versions = versions(rt.alloc(), &ascending())?;
    for (i, left) in versions.iter().enumerate() {
        for (j, right) in versions.iter().enumerate() {
            assert!(rt; compare(left, right, i.cmp(&j)));
        }
    }
    Ok(())
}

/// The order of two versions, as a text.
fn order_of(left: &Version, right: &Version) -> &'static str {
    match (left.cmp(right), right.cmp(left)) {
        (Ordering::Less, Ordering::Greater) => "before",
        (Ordering::Greater, Ordering::Less) => "after",
        (Ordering::Equal, Ordering::Equal) => "the same",
        _ => "no order",
    }
}

/// The order of the versions of some fields, as a text.
fn order_of_fields(alloc: Global, left: Fields, right: Fields) -> Result<&'static str, Fail> {
    let (left, right) = (version(alloc, left)?, version(alloc, right)?);
    Ok(order_of(&left, &right))
}

/// The changeset, the user id, the user name and the tags.
type Row = (u64, u64, &'static str, Pairs);

const NONE: Pairs = &[];

const K: Pairs = &[("k", "1")];

const L: Pairs = &[("l", "1")];

const KK: Pairs = &[("kk", "1")];

/// Fields before the location, in pairs. The line of the first is before the line of the second.
const ROWS: [(Row, Row); 13] = [
    // each field
    ((1, 1, "a", K), (2, 1, "a", K)),
    ((1, 1, "a", K), (1, 2, "a", K)),
    ((1, 1, "a", K), (1, 1, "b", K)),
    ((1, 1, "a", K), (1, 1, "a", L)),
    // a field that ends before the other: the space, comma or equals sign after it decides
    ((1, 1, "a", K), (10, 1, "a", K)),
    ((1, 1, "a", K), (1, 10, "a", K)),
    ((1, 1, "a", K), (1, 1, "ab", K)),
    ((1, 1, "", K), (1, 1, "a", K)),
    ((1, 1, "a", NONE), (1, 1, "a", K)),
    ((1, 1, "a", K), (1, 1, "a", KK)),
    // an escape, and what is after it
    ((1, 1, "a b", K), (1, 1, "ab", K)),
    ((1, 1, "a b", K), (1, 1, "a c", K)),
    ((1, 1, "a ", K), (1, 1, "a b", K)),
];

/// Fields after the tags, in pairs. The line of the first is before the line of the second.
const SHAPES: [(Pairs, Shape, Shape); 9] = [
    // each field
    (NONE, HERE, Shape::Location(20_000_000, 0)),
    (K, Shape::Location(10_000_000, 0), HERE),
    (NONE, Shape::References(&[1, 2]), Shape::References(&[1, 3])),
    (
        NONE,
        Shape::Members(&[(1, "a"), (1, "b")]),
        Shape::Members(&[(1, "a"), (1, "c")]),
    ),
    // a line that begins with the whole other line
    (NONE, HERE, Shape::Location(10_000_000, 15_000_000)),
    (NONE, Shape::References(&[]), Shape::References(&[1])),
    (NONE, Shape::References(&[1]), Shape::References(&[1, 2])),
    (NONE, Shape::Members(&[]), Shape::Members(&[(1, "")])),
    (
        NONE,
        Shape::Members(&[(1, "a")]),
        Shape::Members(&[(1, "a b")]),
    ),
];

/// The fields of a row, at the time 1.
fn of_row((changeset, uid, user, tags): Row, shape: Shape) -> Fields {
    Fields {
        changeset,
        uid,
        user,
        tags,
        shape,
        ..AUTHORED
    }
}

/// A line is compared run by run. A run ends before and after each text, and where an escape begins or ends.
#[test]
fn lines_are_compared_run_by_run(rt: HostRuntime) -> Result<(), Fail> {
    for (left, right) in ROWS {
        let (left, right) = (of_row(left, HERE), of_row(right, HERE));
        assert_eq!(rt; order_of_fields(rt.alloc(), left, right)?, "before");
    }
    for (tags, left, right) in SHAPES {
        let row = (1, 1, "a", tags);
        let (left, right) = (of_row(row, left), of_row(row, right));
        assert_eq!(rt; order_of_fields(rt.alloc(), left, right)?, "before");
    }
    Ok(())
}

/// The rank of a node with an id and a version number.
fn rank(alloc: Global, (id, number): (i64, u64)) -> Result<Rank, Fail> {
    Ok(version(alloc, numbered(id, number))?.rank())
}

/// Whether every comparison of two ranks returns `order`.
fn compare_ranks(left: Rank, right: Rank, order: Ordering) -> bool {
    left.cmp(&right) == order && (left < right) == order.is_lt() && (left == right) == order.is_eq()
}

#[test]
fn versions_have_ranks(rt: HostRuntime) -> Result<(), Fail> {
    let alloc = rt.alloc();
    for (left, right, order) in [
        // the sign of the id, its size, and the number
        ((-3, 2), (1, 1), Ordering::Less),
        ((3, 2), (4, 1), Ordering::Less),
        ((3, 3), (3, 2), Ordering::Greater),
        // ranks don't distinguish ids from 2^45 - 1 on, nor version numbers from 2^16 - 1 on
        ((1 << 45, 2), (1 << 46, 1), Ordering::Equal),
        ((3, 1 << 16), (3, 1 << 17), Ordering::Equal),
    ] {
        assert!(rt; compare_ranks(rank(alloc, left)?, rank(alloc, right)?, order));
    }
    Ok(())
}

#[test]
fn a_version_with_its_rank_is_given_back(rt: HostRuntime) -> Result<(), Fail> {
    let ranked = Ranked::new(version(rt.alloc(), numbered(3, 2))?);
    assert_eq!(rt; ranked.version().number(), 2);
    assert_eq!(rt; ranked.into_version().id(), 3);
    Ok(())
}

/// Whether every comparison of two versions with their ranks returns `order`.
fn compare_ranked(left: &Ranked, right: &Ranked, order: Ordering) -> bool {
    left.cmp(right) == order
        && (left == right) == order.is_eq()
        && left.version().cmp_equal_first(right.version()) == order
}

#[test]
fn versions_with_ranks_are_ordered(rt: HostRuntime) -> Result<(), Fail> {
    let mut ranked = Vec::new(rt.alloc());
    for version in versions(rt.alloc(), &ascending())? {
        ranked.push(Ranked::new(version))?;
    }
    for (i, left) in ranked.iter().enumerate() {
        for (j, right) in ranked.iter().enumerate() {
            assert!(rt; compare_ranked(left, right, i.cmp(&j)));
        }
    }
    Ok(())
}

/// Whether two versions and their objects and keys have these orders.
fn compare_keys(left: &Version, right: &Version, object: Ordering, key: Ordering) -> bool {
    left.object_cmp(right) == object
        && Object::of(left).order(&Object::of(right)) == object
        && left.key_cmp(right) == key
        && Key::of(left).order(&Key::of(right)) == key
}

#[test]
fn objects_and_keys_are_ordered(rt: HostRuntime) -> Result<(), Fail> {
    let alloc = rt.alloc();
    for (left, right, object, key) in [
        ((1, 1), (1, 2), Ordering::Equal, Ordering::Less),
        ((1, 2), (1, 2), Ordering::Equal, Ordering::Equal),
        ((1, 1), (-2, 2), Ordering::Greater, Ordering::Greater),
        ((-2, 2), (-3, 1), Ordering::Less, Ordering::Less),
    ] {
        let left = version(alloc, numbered(left.0, left.1))?;
        let right = version(alloc, numbered(right.0, right.1))?;
        assert!(rt; compare_keys(&left, &right, object, key));
    }
    Ok(())
}

/// A history of one node: version 1 at longitude `lon`, and version 2, which is in the list twice.
fn history(alloc: Global, lon: i32) -> Result<History, Fail> {
    let rows = [numbered(1, 2), at(1, lon, 1), numbered(1, 2)];
    Ok(History::from_versions(versions(alloc, &rows)?)?)
}

/// The length of a history, whether it is empty, and whether it contains the version 1 at longitude 10.
fn history_shows(alloc: Global, history: &History) -> Result<(usize, bool, bool), Fail> {
    let first = version(alloc, at(1, 100_000_000, 1))?;
    Ok((history.len(), history.is_empty(), history.contains(&first)))
}

#[test]
fn a_history_is_a_set(rt: HostRuntime) -> Result<(), Fail> {
    let alloc = rt.alloc();
    assert_eq!(rt;
        history_shows(alloc, &History::new(alloc))?,
        (0, true, false)
    );
    for (lon, has_first) in [(90_000_000, false), (100_000_000, true)] {
        assert_eq!(rt;
            history_shows(alloc, &history(alloc, lon)?)?,
            (2, false, has_first)
        );
    }
    Ok(())
}

#[test]
fn histories_are_joined(rt: HostRuntime) -> Result<(), Fail> {
    let alloc = rt.alloc();
    let (a, b) = (history(alloc, 90_000_000)?, history(alloc, 100_000_000)?);
    let both = a.join(&b)?;
    assert_eq!(rt; (a.len(), b.len()), (2, 2));
    assert_eq!(rt; history_shows(alloc, &both)?, (3, false, true));
    Ok(())
}

#[test]
fn a_history_is_listed(rt: HostRuntime) -> Result<(), Fail> {
    let alloc = rt.alloc();
    let again = history(alloc, 100_000_000)?.copy()?;
    let first = "n1 v1 dV c0 t i0 u T x10 y0.0000001";
    assert_eq!(rt; again.len(), 2);
    assert!(rt; appends(alloc, again.get(0), first)?);
    assert_eq!(rt; again.get(1).number(), 2);
    Ok(())
}

#[test]
fn a_history_gives_its_versions(rt: HostRuntime) -> Result<(), Fail> {
    let given = history(rt.alloc(), 100_000_000)?.into_versions();
    assert_eq!(rt; given.len(), 2);
    assert_eq!(rt; (given[0].number(), given[1].number()), (1, 2));
    Ok(())
}

#[test]
fn faults_have_texts(rt: HostRuntime) -> Result<(), Fail> {
    let alloc = rt.alloc();
    assert_eq!(rt;
        Memory::from(AllocError).to_string(alloc)?.as_str(),
        "out of memory"
    );
    let fault = ValueFault::NoVersion;
    assert_eq!(rt; fault.to_string(alloc)?.as_str(), "no version number");
    Ok(())
}

#[test]
fn an_ascending_list_is_a_history(rt: HostRuntime) -> Result<(), Fail> {
    let versions = history(rt.alloc(), 90_000_000)?.into_versions();
    let count = versions.len();
    assert_eq!(rt; History::from_ascending(versions).len(), count);
    Ok(())
}
