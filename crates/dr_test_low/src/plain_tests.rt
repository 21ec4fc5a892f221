use dr_nested::Kind;
use dr_plain::{TextPlace, Values, write_plain, write_texts};
use std::test::Fail;

/// No command writes values that aren't a column's: that there are bytes. Which they are stands among the vectors.
#[test]
fn numbers_are_written(rt: HostRuntime) -> Result<(), Fail> {
    let values = Values::Integers([258].to_vec(rt.alloc())?);
    let mut out = Vec::new(rt.alloc());
    write_plain(Kind::I64, &values, &[], &mut out).or(Err("memory"))?;
    assert_eq!(rt; out.as_slice(), [2, 1, 0, 0, 0, 0, 0, 0].as_slice());
    Ok(())
}

/// The same of texts, which stand in other bytes.
#[test]
fn texts_are_written_behind_their_lengths(rt: HostRuntime) -> Result<(), Fail> {
    let places = [
        TextPlace {
            start: 1,
            length: 2,
        },
        TextPlace {
            start: 3,
            length: 0,
        },
    ];
    let written = [2, 0, 0, 0, b'b', b'c', 0, 0, 0, 0];
    let mut out = Vec::new(rt.alloc());
    write_texts(&places, b"abc", &mut out).or(Err("memory"))?;
    assert_eq!(rt; out.as_slice(), written.as_slice());
    out.clear();
    let values = Values::Texts(Vec::from_array(rt.alloc(), places)?);
    write_plain(Kind::Text, &values, b"abc", &mut out).or(Err("memory"))?;
    assert_eq!(rt; out.as_slice(), written.as_slice());
    Ok(())
}
