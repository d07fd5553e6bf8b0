//! Lines of certificates read and written. Each text was written by hand.

use certificate_lines::{Bound, CertificateLine, Side, Version, line_of, write_line, write_tail};
use plan_desk::{Desk, Failed, MemDesk};
use std::alloc::{AllocError, Global};
use std::test::Fail;

/// Writes the line to a new file.
fn write_to_file<D: Desk>(line: &CertificateLine, desk: &mut D) -> Result<(), Failed> {
    desk.put_out("lines")?;
    write_line(line, desk)
}

/// Writes the line of a tail to a new file.
fn write_tail_to_file<D: Desk>(
    t: u32,
    weight: u32,
    places: &[u32],
    desk: &mut D,
) -> Result<(), Failed> {
    desk.put_out("lines")?;
    write_tail(t, weight, places, desk)
}

/// Whether the text of a line is read, and its line is written as the text again.
fn is_written_back(alloc: Global, text: &[u8]) -> Result<bool, AllocError> {
    let Some(bytes) = text.strip_suffix(b"\n") else {
        return Ok(false);
    };
    let Some(line) = line_of(alloc, bytes)? else {
        return Ok(false);
    };
    let mut desk = MemDesk::make(alloc);
    Ok(write_to_file(&line, &mut desk).is_ok() && desk.file("lines") == Some(text))
}

#[test]
fn reads_and_writes_each_form(rt: HostRuntime) -> Result<(), Fail> {
    for text in [
        b"mpcert 1\n".as_slice(),
        b"mpcert 2\n",
        b"bound none\n",
        b"bound 0\n",
        b"bound -9999999999999999999999999999999999999\n",
        b"lists 2\n",
        b"prices\n",
        b"up 1 2 9999999999999999999\n",
        b"lo 3 4 0\n",
        b"tail 5 6\n",
        b"tail 5 6 0 1 12\n",
        b"ex 7 8 9\n",
        b"tree\n",
        b"split 10 11\n",
        b"cost 0\n",
        b"point\n",
        b"band 12 13 over\n",
        b"band 12 13 under\n",
        b"excl 14\n",
        b"empty 15\n",
    ] {
        assert!(rt; is_written_back(rt.alloc(), text)?, "{text:?}");
    }
    Ok(())
}

#[test]
fn tells_what_it_read(rt: HostRuntime) -> Result<(), Fail> {
    match line_of(rt.alloc(), b"up 1 2 3")? {
        Some(CertificateLine::Up { c, t, v }) => assert_eq!(rt; (c, t, v), (1, 2, 3)),
        other => panic!(rt; "{other:?}"),
    }
    match line_of(rt.alloc(), b"bound -17")? {
        Some(CertificateLine::Bound(bound)) => assert_eq!(rt; bound, Bound::Least(-17)),
        other => panic!(rt; "{other:?}"),
    }
    match line_of(rt.alloc(), b"mpcert 2")? {
        Some(CertificateLine::Title(version)) => assert_eq!(rt; version, Version::Two),
        other => panic!(rt; "{other:?}"),
    }
    match line_of(rt.alloc(), b"band 4 5 under")? {
        Some(CertificateLine::Band { c, t, side }) => {
            assert_eq!(rt; (c, t), (4, 5));
            assert_eq!(rt; side, Side::Under);
        }
        other => panic!(rt; "{other:?}"),
    }
    match line_of(rt.alloc(), b"tail 6 7 8 9")? {
        Some(CertificateLine::Tail { t, weight, places }) => {
            assert_eq!(rt; (t, weight), (6, 7));
            assert_eq!(rt; places.as_slice(), [8, 9].as_slice());
            let list = places.into_vec();
            assert_eq!(rt; list.len(), 2);
        }
        other => panic!(rt; "{other:?}"),
    }
    Ok(())
}

#[test]
fn refuses_other_texts(rt: HostRuntime) -> Result<(), Fail> {
    for text in [
        b"".as_slice(),
        b" ",
        b"mpcert",
        b"mpcert 3",
        b"mpcert 1 ",
        b"mpcert 01",
        b"Mpcert 1",
        b"bound",
        b"bound ",
        b"bound -0",
        b"bound +1",
        b"bound 01",
        b"bound --1",
        b"bound None",
        b"bound 10000000000000000000000000000000000000",
        b"lists -1",
        b"prices ",
        b"prices\r",
        b"up 1 2",
        b"up 1 2 3 4",
        b"up 1  2 3",
        b"up 1 2 3 ",
        b" up 1 2 3",
        b"up 1 2 03",
        b"up 1 2 10000000000000000000",
        b"tail 1",
        b"tail 1 2 ",
        b"tail 1 2 3 3",
        b"tail 1 2 4 3",
        b"tree 1",
        b"band 1 2",
        b"band 1 2 Over",
        b"band 1 2 over ",
        b"exc 1",
        b"empty",
        b"point\n",
    ] {
        let read = line_of(rt.alloc(), text)?;
        assert!(rt; read.is_none(), "{text:?} is read");
    }
    Ok(())
}

#[test]
fn writes_tails(rt: HostRuntime) -> Result<(), Fail> {
    for (places, text) in [
        ([].as_slice(), b"tail 4 4294967295\n".as_slice()),
        (
            &[1, 20, 4_294_967_295],
            b"tail 4 4294967295 1 20 4294967295\n",
        ),
    ] {
        let mut desk = MemDesk::make(rt.alloc());
        assert_eq!(rt; write_tail_to_file(4, u32::MAX, places, &mut desk), Ok(()));
        assert_eq!(rt; desk.file("lines"), Some(text));
    }
    Ok(())
}
