ghost use Rattle.std.specs.Prelude.{◌≡◌, ◌≢◌, IfOk, Err};

use dr_memory::NoMemory;
use dr_outside::{
    Asked, Cause, Failed, Fault, Gate, Keeper, Link, MemLink, MemSink, MemSource, OpenGate, Shelf,
    Sink, Source, write_all,
};
use std::alloc::{AllocError, Global};
use std::test::Fail;

fn read_three<S: Source>(source: &mut S, buf: &mut [u8; 3]) -> Result<usize, Failed> {
    source.read(buf)
}

fn size_of<L: Link>(link: &mut L, path: &str) -> Result<u64, Fault> {
    link.size(path)
}

fn read_two<L: Link>(link: &mut L, path: &str, at: u64) -> Result<[u8; 2], Fault> {
    let mut buf = [0; 2];
    link.read_at(path, at, &mut buf)?;
    Ok(buf)
}

fn keep<K: Keeper>(keeper: &mut K, path: &str, bytes: &[u8]) -> Result<(), Fault> {
    keeper.put(path, bytes)
}

fn pass<G: Gate + Sync>(gate: &G) {
    gate.at(1, 0);
}

// Over things in memory without a listed failure, the contracts give the answer.
fn size_after_put(alloc: Global) -> Result<u64, Fault>
    ensures steady { result ≢ Err Fault.Failed }
    ensures size { IfOk result (λ n. n ≡ 5) }
{
    let mut shelf = Shelf::new(alloc, Vec::new(alloc));
    shelf.put("a", b"first")?;
    let mut link = MemLink::new(alloc, &shelf, Vec::new(alloc));
    link.size("a")
}

// Requests of sizes, and of two bytes from a place on.
fn requests(alloc: Global, noted: &[(&str, Option<u64>)]) -> Result<Vec<Asked>, AllocError> {
    let mut requests = Vec::new(alloc);
    for (path, start) in noted {
        let path = String::from_str(alloc, path)?;
        requests.push(match *start {
            Some(start) => Asked::Range {
                path,
                start,
                len: 2,
            },
            None => Asked::Size { path },
        })?;
    }
    Ok(requests)
}

fn crosses_threads<T: Send>(_: &T) {}

/// What cases stand on: a form in memory.
#[test]
fn a_source_gives_its_bytes_and_fails_where_listed(rt: HostRuntime) -> Result<(), Fail> {
    let failing = [2].to_vec(rt.alloc())?;
    let mut source = MemSource::new(b"hello", failing);
    let answers = [
        (Ok(3), "hel"),
        (Err(Failed), "hel"),
        (Ok(2), "lol"),
        (Ok(0), "lol"),
    ];
    let mut buf = [0; 3];
    for (answer, text) in answers {
        assert_eq!(rt; read_three(&mut source, &mut buf), answer);
        assert_eq!(rt; buf.as_slice(), text.as_bytes());
    }
    assert_eq!(rt; source.faults(), 1);
    assert!(rt; source.left().is_empty());
    Ok(())
}

/// What cases stand on: a form in memory.
#[test]
fn a_piece_is_written_whole_or_up_to_the_failure(rt: HostRuntime) -> Result<(), Fail> {
    let alloc = rt.alloc();
    let mut whole = MemSink::new(alloc, Vec::new(alloc));
    write_all(&mut whole, b"abcde")?;
    assert_eq!(rt; whole.written(), b"abcde".as_slice());
    let mut narrow = MemSink::narrow(alloc, 2, [3].to_vec(alloc)?);
    assert_eq!(rt; write_all(&mut narrow, b"abcde"), Err(Failed));
    assert_eq!(rt; narrow.written(), b"abcd".as_slice());
    write_all(&mut narrow, b"xyz")?;
    assert_eq!(rt; narrow.written(), b"abcdxyz".as_slice());
    assert_eq!(rt; narrow.faults(), 1);
    Ok(())
}

/// What cases stand on: a form in memory.
#[test]
fn a_shelf_keeps_files_by_path(rt: HostRuntime) -> Result<(), Fail> {
    let alloc = rt.alloc();
    let mut shelf = Shelf::new(alloc, [3].to_vec(alloc)?);
    keep(&mut shelf, "a/1", b"first")?;
    keep(&mut shelf, "b/2", b"second")?;
    assert_eq!(rt; keep(&mut shelf, "b/2", b"lost"), Err(Fault::Failed));
    keep(&mut shelf, "a/1", b"other one")?;
    assert_eq!(rt; size_of(&mut shelf, "a/1")?, 9);
    assert_eq!(rt; read_two(&mut shelf, "b/2", 4)?, *b"nd");
    assert_eq!(rt; read_two(&mut shelf, "b/2", 5), Err(Fault::Failed));
    assert_eq!(rt; size_of(&mut shelf, "c"), Err(Fault::Failed));
    assert_eq!(rt; Link::faults(&shelf), 3);
    assert_eq!(rt; shelf.get("b/2").ok_or("b/2")?, b"second".as_slice());
    assert!(rt; shelf.get("c").is_none());
    let lost = shelf.puts().get(2).ok_or("no third put")?;
    assert_eq!(rt;
        (lost.path.as_str(), lost.bytes.as_slice()),
        ("b/2", b"lost".as_slice())
    );
    Ok(())
}

/// What cases stand on: a form in memory.
#[test]
fn a_link_gives_ranges_of_the_shelf(rt: HostRuntime) -> Result<(), Fail> {
    let alloc = rt.alloc();
    let mut shelf = Shelf::new(alloc, Vec::new(alloc));
    keep(&mut shelf, "a", b"first")?;
    keep(&mut shelf, "b", b"second")?;
    let mut link = MemLink::new(alloc, &shelf, [2].to_vec(alloc)?);
    assert_eq!(rt; size_of(&mut link, "b")?, 6);
    assert_eq!(rt; read_two(&mut link, "a", 0), Err(Fault::Failed));
    let reads = [
        ("a", 0, Ok(*b"fi")),
        ("a", 3, Ok(*b"st")),
        ("a", 4, Err(Fault::Failed)),
        ("b", 4, Ok(*b"nd")),
        ("c", 0, Err(Fault::Failed)),
        ("b", u64::MAX, Err(Fault::Failed)),
    ];
    for (path, at, answer) in reads {
        assert_eq!(rt; read_two(&mut link, path, at), answer);
    }
    assert_eq!(rt; Link::faults(&link), 4);
    // Each request is noted, also the refused ones.
    let noted = [
        ("b", None),
        ("a", Some(0)),
        ("a", Some(0)),
        ("a", Some(3)),
        ("a", Some(4)),
        ("b", Some(4)),
        ("c", Some(0)),
        ("b", Some(u64::MAX)),
    ];
    let expected = requests(alloc, &noted)?;
    assert_eq!(rt; link.asked(), expected.as_slice());
    crosses_threads(&link);
    assert_eq!(rt; size_after_put(alloc)?, 5);
    Ok(())
}

/// What cases stand on: a form in memory.
#[test]
fn an_open_gate_holds_nobody_up() {
    pass(&OpenGate);
}

/// Types' own calls.
#[test]
fn causes_and_faults_have_their_names(rt: HostRuntime) -> Result<(), Fail> {
    let failed = Cause::ReadFailed {
        before: 1,
        after: 2,
    };
    let names = [
        (failed, "read"),
        (Cause::BadFooter, "footer"),
        (Cause::BadSchema, "schema"),
        (Cause::BadCodec, "codec"),
        (Cause::BadData, "data"),
    ];
    for (cause, name) in names {
        assert_eq!(rt; cause.name(), name);
        assert_eq!(rt; cause.to_string(rt.alloc())?.as_str(), name);
    }
    assert_eq!(rt; Fault::from(Failed), Fault::Failed);
    assert_eq!(rt; Fault::from(NoMemory), Fault::NoMemory);
    assert_eq!(rt; Fault::from(AllocError), Fault::NoMemory);
    assert_eq!(rt; NoMemory::from(AllocError), NoMemory);
    Ok(())
}
