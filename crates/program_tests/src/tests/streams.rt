use mb_base::{
    EdgeId, MemSink, MemSource, ReadAll, Sequence, SureSink, SureSource, VertexId, WriteFault,
    read_all, write_all,
};
use std::alloc::Global;
use std::test::Fail;

/// What comes through a source and into a sink, in pieces of this size.
fn copied(alloc: Global, text: &[u8], piece: usize) -> Result<Vec<u8>, Fail> {
    let piece = piece.max(1);
    let mut source = SureSource::new(Vec::from_slice(alloc, text)?, piece);
    let mut sink = SureSink::new(alloc, 100, piece)?;
    if let Ok(read) = read_all(alloc, &mut source, 100)
        && let Err(_) = write_all(&mut sink, &read)
    {
        return Ok(Vec::new(alloc));
    }
    Ok(Vec::from_slice(alloc, sink.kept())?)
}

// With ample memory no call answers want of it.
#[test]
fn all_bytes_come_and_go(rt: HostRuntime) -> Result<(), Fail> {
    let text = b"seven b".as_slice();
    for piece in [1usize, 3, 100] {
        assert!(rt; copied(rt.alloc(), text, piece)?.as_slice() == text);
    }
    Ok(())
}

/// How reading three bytes fails, one at a time, where the call of this number does.
fn fault_of_read(alloc: Global, call: u64, limit: u64) -> Result<Option<ReadAll>, Fail> {
    let bytes = Vec::from_slice(alloc, b"abc")?;
    let mut source = MemSource::new(bytes, 1, vec![in alloc; call]?);
    Ok(read_all(alloc, &mut source, limit.min(100)).err())
}

const FAULT: Option<ReadAll> = Some(ReadAll::ReadFault);

/// The call that fails, the limit, and how the reading fails.
const READS: [(u64, u64, Option<ReadAll>); 6] = [
    (1, 3, FAULT),
    (2, 3, FAULT),
    (4, 3, FAULT),
    (5, 3, None),
    (0, 3, None),
    (0, 2, Some(ReadAll::TooLong)),
];

#[test]
fn reads_fail_at_their_calls(rt: HostRuntime) -> Result<(), Fail> {
    for (call, limit, wanted) in &READS {
        assert!(rt; fault_of_read(rt.alloc(), *call, *limit)? == *wanted);
    }
    Ok(())
}

/// How writing four bytes ends, one at a time, where the call of this number fails, and how many
/// are kept.
fn end_of_write(alloc: Global, call: u64) -> Result<(Result<(), WriteFault>, usize), Fail> {
    let mut sink = MemSink::new(alloc, 4, 1, vec![in alloc; call]?)?;
    let end = write_all(&mut sink, b"abcd");
    Ok((end, sink.kept().len()))
}

#[test]
fn writes_fail_at_their_calls(rt: HostRuntime) -> Result<(), Fail> {
    for call in 1..5u64 {
        let done = call as usize - 1;
        let wanted = (Err(WriteFault { done }), done);
        assert!(rt; end_of_write(rt.alloc(), call)? == wanted);
    }
    assert!(rt; end_of_write(rt.alloc(), 5)? == (Ok(()), 4));
    Ok(())
}

#[test]
fn sequences_are_vectors(rt: HostRuntime) -> Result<(), Fail> {
    let alloc = rt.alloc();
    let edges = Sequence::from_vec(vec![in alloc; EdgeId::new(9)]?);
    assert!(rt; edges.into_vec()[0].number() == 9);
    let mut vertices = Sequence::new(alloc);
    assert!(rt; vertices.is_empty());
    vertices.push(VertexId::new(4))?;
    assert!(rt; vertices.len() == 1);
    assert!(rt; vertices.as_slice()[0].number() == 4);
    Ok(())
}
