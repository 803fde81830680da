// Calls that succeed, that fail when told to, and that take a part.

use outside::{
    LoadFault, MemSink, MemStore, Store, SureStore, Trouble, read_all, write_all, write_file,
};

#[test]
fn sink_takes_four_and_then_fails(rt: HostRuntime) {
    let mut fails = Vec::new(rt.alloc());
    assert!(rt; fails.push(2).is_ok());
    let mut sink = MemSink::new(rt.alloc(), fails, 4);
    assert!(rt; write_all(&mut sink, b"abcdef") == Err(Trouble::Failed));
    assert!(rt; sink.bytes() == b"abcd".as_slice());
    assert!(rt; write_all(&mut sink, b"xyz") == Ok(()));
    assert!(rt; sink.bytes() == b"abcdxyz".as_slice());
}

#[test]
fn older_file_counts_for_no_name(rt: HostRuntime) {
    let mut store = SureStore::new(rt.alloc(), 2);
    let Ok(older) = store.create("f") else {
        panic!(rt; "create");
    };
    assert!(rt; store.write(older, b"abc") == Ok(2));
    assert!(rt; store.bytes("f") == Some(b"ab"));
    let Ok(newer) = store.create("f") else {
        panic!(rt; "create again");
    };
    assert!(rt; store.write(newer, b"x") == Ok(1));
    assert!(rt; store.write(older, b"y") == Ok(1));
    assert!(rt; store.bytes("f") == Some(b"x"));
    assert!(rt; write_file(&mut store, "f", b"new") == Ok(()));
    assert!(rt; store.bytes("f") == Some(b"new"));
}

#[test]
fn files_are_read_whole(rt: HostRuntime) {
    let mut fails = Vec::new(rt.alloc());
    assert!(rt; fails.push(6).is_ok());
    let mut store = MemStore::new(rt.alloc(), fails, 3);
    assert!(rt; store.add("f", b"abcd").is_ok());
    let Ok(read) = read_all(rt.alloc(), &mut store, "f") else {
        panic!(rt; "read");
    };
    assert!(rt; read.as_slice() == b"abcd".as_slice());
    assert!(rt; read_all(rt.alloc(), &mut store, "g").err() == Some(LoadFault::Open));
    assert!(rt; read_all(rt.alloc(), &mut store, "g").err() == Some(LoadFault::Missing));
}
