use images::writer::write;
use images::{Image, ImageFault, WriteFault};
use pairs::Pairs;
use rows::Rows;
use std::test::Fail;
use stores::{NewStore, Reader, Store};
use test_support::claim::claim;
use test_support::sample_edges::pair;

// Puts the pairs of roles with the vertices that `gap` divides, until the table is full.
fn fill<S: Store>(store: &mut S, gap: u16) {
    for from in 64u16..128 {
        for to in (64u16..256).filter(|to| to % gap.max(1) == 0) {
            let _ = store.put(pair(from, to));
        }
    }
}

// Whether two readers hold the same vault edges.
fn same<A: Reader, B: Reader>(one: &A, other: &B) -> bool {
    let counts = one.count() == other.count();
    counts
        && (0u16..128).all(|from| {
            let rows = one.row(from) == other.row(from);
            rows && (64u16..256).all(|to| one.holds(pair(from, to)) == other.holds(pair(from, to)))
        })
}

// Whether all bytes of a buffer from a place on are as they were.
fn untouched(buffer: &[u8], from: usize) -> bool {
    buffer.iter().skip(from).all(|byte| *byte == 7)
}

// The image of a table has so many pairs, is opened as the same table, and stands in a buffer whose
// other bytes are as they were. The writer asks for no memory: it is lent the buffer.
fn round_trip<R: Reader>(table: &R, runs: usize) -> Result<(), Fail> {
    let mut buffer = [7u8; 2060];
    let length = write(table, &mut buffer).map_err(|_| Fail::new("no room for an image"))?;
    claim(
        length == runs.saturating_mul(4).saturating_add(2),
        "so many pairs",
    )?;
    claim(untouched(&buffer, length), "no other byte is altered")?;
    match Image::open(&buffer[..length.min(2060)]) {
        Ok(image) => claim(same(table, &image), "it is the same table"),
        Err(_) => Err(Fail::new("what was written is no image")),
    }
}

// Whether bytes are no image.
fn is_none(bytes: &[u8]) -> bool {
    matches!(Image::open(bytes), Err(ImageFault::NoImage))
}

#[test]
fn round_trips(rt: HostRuntime) -> Result<(), Fail> {
    let alloc = rt.alloc();
    let mut rows = Rows::new(alloc, 512)?;
    round_trip(&rows, 0)?;
    fill(&mut rows, 1);
    round_trip(&rows, 3)?;
    let mut pairs = Pairs::new(alloc, 512)?;
    round_trip(&pairs, 0)?;
    fill(&mut pairs, 2);
    round_trip(&pairs, 512)?;
    Ok(())
}

#[test]
fn buffers(rt: HostRuntime) -> Result<(), Fail> {
    let alloc = rt.alloc();
    let mut rows = Rows::new(alloc, 512)?;
    fill(&mut rows, 2);
    let mut small = [7u8; 2049];
    assert!(rt; write(&rows, &mut small) == Err(WriteFault::NoRoom));
    assert!(rt; untouched(&small, 0));
    let mut large = [7u8; 2050];
    assert!(rt; write(&rows, &mut large) == Ok(2050));
    Ok(())
}

// Each way to be malformed, once.
#[test]
fn malformed(rt: HostRuntime) {
    assert!(rt; is_none(&[]));
    assert!(rt; is_none(&[0]));
    assert!(rt; is_none(&[0, 1]));
    assert!(rt; is_none(&[0, 0, 0]));
    assert!(rt; is_none(&[0, 1, 64, 65, 0, 1, 0]));
    assert!(rt; is_none(&[0, 1, 64, 65, 0, 0]));
    assert!(rt; is_none(&[0, 2, 64, 65, 0, 1, 64, 66, 0, 1]));
    assert!(rt; is_none(&[0, 2, 64, 65, 0, 2, 64, 66, 0, 1]));
    assert!(rt; is_none(&[0, 2, 65, 65, 0, 1, 64, 66, 0, 1]));
    assert!(rt; is_none(&[0, 1, 0, 128, 0, 1]));
    assert!(rt; is_none(&[0, 1, 64, 255, 0, 2]));
    assert!(rt; is_none(&[0, 1, 128, 64, 0, 1]));
    assert!(rt; is_none(&[1, 0, 64, 65, 0, 1]));
    assert!(rt; !is_none(&[0, 1, 64, 64, 0, 192]));
    assert!(rt; is_none(&[0, 3, 64, 64, 0, 192, 65, 64, 0, 192, 66, 64, 0, 129]));
    assert!(rt; !is_none(&[0, 3, 64, 64, 0, 192, 65, 64, 0, 192, 66, 64, 0, 128]));
}
