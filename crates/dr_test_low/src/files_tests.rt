//! Real files and streams. No case shows these, since its things lie in memory.

use dr_files::{DirKeeper, DirLink, Incoming, Outgoing};
use dr_outside::{Failed, Fault, Keeper, Link, Sink, Source, write_all};
use std::test::Fail;
use std::{env, fs, process};

/// A path at which nothing can be kept.
const ASTRAY: &str = "no such folder/x";

fn crosses_threads<T: Send>(_: &T) {}

/// The size that a keeper tells of a file that it has just kept.
fn size_kept<K: Keeper>(keeper: &mut K, path: &str, bytes: &[u8]) -> Result<u64, Fault> {
    keeper.put(path, bytes)?;
    keeper.size(path)
}

/// Four bytes of a file.
fn four_of<L: Link>(link: &mut L, path: &str, at: u64) -> Result<[u8; 4], Fault> {
    let mut buf = [0; 4];
    link.read_at(path, at, &mut buf)?;
    Ok(buf)
}

#[test]
fn a_reader_is_a_source(rt: HostRuntime) -> Result<(), Fail> {
    let mut buf = [0; 3];
    let mut source = Incoming::new(b"hello".as_slice());
    let first = (source.read(&mut buf), buf);
    let second = (source.read(&mut buf), buf);
    let third = (source.read(&mut buf), buf);
    assert_eq!(rt;
        [first, second, third],
        [(Ok(3), *b"hel"), (Ok(2), *b"lol"), (Ok(0), *b"lol")]
    );
    // Standard input is only asked for nothing, since a test doesn't know what stands there.
    assert_eq!(rt; Incoming::new(rt.stdin()).read(&mut []), Ok(0));
    Ok(())
}

#[test]
fn a_writer_is_a_sink(rt: HostRuntime) -> Result<(), Fail> {
    let mut room = [0; 3];
    let mut full = Outgoing::new(room.as_mut_slice());
    assert_eq!(rt; write_all(&mut full, b"four"), Err(Failed));
    assert_eq!(rt; full.write(b""), Ok(0));
    write_all(&mut Outgoing::new(rt.stdout()), b"to standard output\n")?;
    write_all(&mut Outgoing::new(rt.stderr()), b"to standard error\n")?;
    Ok(())
}

/// What a keeper tells of a file that it keeps twice and of one that it can't keep, and how often it failed.
fn kept(rt: HostRuntime, path: &str) -> ([Result<u64, Fault>; 3], Result<[u8; 4], Fault>, u64) {
    let mut keeper = DirKeeper::new(rt.alloc(), rt);
    let old = size_kept(&mut keeper, path, b"the old text, longer");
    let new = size_kept(&mut keeper, path, b"another text");
    let none = size_kept(&mut keeper, ASTRAY, b"x");
    let astray = four_of(&mut keeper, ASTRAY, 0);
    ([old, new, none], astray, keeper.faults())
}

/// What a link tells of a file that it holds, and of the same one where its name is gone: it stays open until a read of
/// it fails.
fn read(
    rt: HostRuntime,
    path: &str,
) -> ([Result<u64, Fault>; 2], [Result<[u8; 4], Fault>; 3], u64) {
    let mut link = DirLink::new(rt.alloc(), rt);
    crosses_threads(&link);
    let size = link.size(path);
    let last = four_of(&mut link, path, 8);
    let gone = fs::remove_file(&rt, path).is_ok();
    let first = four_of(&mut link, path, 0);
    let beyond = four_of(&mut link, path, 9);
    let none = link.size(if gone { path } else { ASTRAY });
    ([size, none], [last, first, beyond], link.faults())
}

#[test]
fn files_are_kept_and_read_by_ranges(rt: HostRuntime) -> Result<(), Fail> {
    let folder = env::temp_dir(&rt)?;
    let process = process::id(rt.process());
    let name = format!(in rt.alloc(); "{}/dremel_files_{process}", folder.as_str())?;
    let failed = Err(Fault::Failed);
    let told = kept(rt, name.as_str());
    assert_eq!(rt; told, ([Ok(20), Ok(12), failed], Err(Fault::Failed), 2));
    let told = read(rt, name.as_str());
    let bytes = [Ok(*b"text"), Ok(*b"anot"), Err(Fault::Failed)];
    assert_eq!(rt; told, ([Ok(12), failed], bytes, 2));
    Ok(())
}
