use input_core::{
    Fields, INPUT_LIMIT, LineFault, LineKind, MemShelf, MemSink, PutFault, ReadRefusal, Rows,
    Shelf, Sink, kind_text, read_all, read_name, read_number_below, read_number_in, text_of_field,
};
use std::alloc::{AllocError, Global};
use std::process::Abort;
use std::test::Fail;
use text_lines::{push_field, push_last, push_last_number, push_number};

fn files(alloc: Global) -> Result<Vec<(String, Vec<u8>)>, AllocError> {
    let name = String::from_str(alloc, "i")?;
    let bytes = Vec::from_slice(alloc, b"Name: x")?;
    let mut files = Vec::new(alloc);
    files.push((name, bytes))?;
    Ok(files)
}

// Its fourth and sixth calls fail.
#[test]
fn reads_until_a_listed_call_fails(rt: HostRuntime) -> Result<(), Fail> {
    let alloc = rt.alloc();
    let failing = Vec::from_slice(alloc, &[4, 6])?;
    let mut shelf = MemShelf::new(alloc, files(alloc)?, failing);
    judge_reads(&rt, alloc, &mut shelf)
}

fn judge_reads(rt: &impl Abort, alloc: Global, shelf: &mut MemShelf) -> Result<(), Fail> {
    let bytes = read_all(alloc, shelf, "i", 7)?;
    assert!(rt; bytes.as_slice() == b"Name: x".as_slice());
    let long = read_all(alloc, shelf, "i", 6);
    assert!(rt; long.err() == Some(ReadRefusal::TooLong { taken: 7 }));
    let failed = read_all(alloc, shelf, "i", INPUT_LIMIT);
    assert!(rt; failed.err() == Some(ReadRefusal::Fault));
    let unknown = read_all(alloc, shelf, "t", INPUT_LIMIT);
    assert!(rt; unknown.err() == Some(ReadRefusal::Fault));
    assert!(rt; shelf.put("t", b"C1 0 0") == Err(PutFault::Fault));
    assert!(rt; shelf.put("t", b"C1 0 0").is_ok());
    let times = read_all(alloc, shelf, "t", INPUT_LIMIT)?;
    assert!(rt; times.as_slice() == b"C1 0 0".as_slice());
    Ok(())
}

#[test]
fn writes_a_front_at_a_listed_call(rt: HostRuntime) -> Result<(), Fail> {
    let alloc = rt.alloc();
    let mut sink = MemSink::new(alloc, Vec::from_slice(alloc, &[(2, 3)])?);
    assert!(rt; sink.write(b"a").is_ok());
    assert!(rt; sink.write(b"Optimal") == Err(PutFault::Fault));
    assert!(rt; sink.bytes() == b"aOpt".as_slice());
    Ok(())
}

#[test]
fn takes_lines_fields_and_numbers(rt: HostRuntime) -> Result<(), Fail> {
    let mut rows = Rows::new(b"\n\tC1\t007 \r\n\n\xc8");
    let row = rows.expect()?;
    assert!(rt; row.line == 2);
    judge_fields(&rt, rt.alloc(), row.fields)?;
    let byte = LineFault {
        line: 4,
        kind: LineKind::Byte,
    };
    assert!(rt; rows.next().err() == Some(byte));
    let end = LineFault {
        line: 5,
        kind: LineKind::Missing,
    };
    assert!(rt; rows.expect().err() == Some(end));
    Ok(())
}

/// The fields are a name and the number 7.
fn judge_fields(rt: &impl Abort, alloc: Global, mut fields: Fields) -> Result<(), Fail> {
    assert!(rt; fields.count() == 2);
    assert!(rt; !fields.is_alone(b"C1"));
    let name = fields.next().ok_or("no name")?;
    assert!(rt; read_name(name) == Ok(b"C1"));
    assert!(rt; text_of_field(alloc, name)?.as_str() == "C1");
    let number = fields.next().ok_or("no number")?;
    assert!(rt; read_number_in(0, 7, number) == Ok(7));
    assert!(rt; read_number_below(7, number) == Err(LineKind::Range));
    Ok(())
}

#[test]
fn prints_counts(rt: HostRuntime) -> Result<(), Fail> {
    let kind = LineKind::Count {
        wanted: 3,
        found: 2,
    };
    let count = kind_text(rt.alloc(), kind)?;
    assert!(rt; count.as_slice() == b"count 2, header says 3".as_slice());
    let limit = kind_text(rt.alloc(), LineKind::TooMany { limit: 100 })?;
    assert!(rt; limit.as_slice() == b"more than 100".as_slice());
    Ok(())
}

#[test]
fn writes_a_line(rt: HostRuntime) -> Result<(), Fail> {
    let mut text = Vec::new(rt.alloc());
    push_field(&mut text, b"C1")?;
    push_number(&mut text, 40)?;
    push_last(&mut text, b"R1")?;
    push_last_number(&mut text, 0)?;
    assert!(rt; text.as_slice() == b"C1 40 R1\n0\n".as_slice());
    Ok(())
}
