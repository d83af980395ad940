// Names as docs/KINDS.md shows them.
use kinds::kind::Payload;
use kinds::name::{Name, NamePayload};
use std::test::Fail;

#[test]
fn sameness(rt: HostRuntime) -> Result<(), Fail> {
    let mass = NamePayload::decode(b"Mass").ok_or("no name")?;
    assert!(rt; mass != NamePayload::decode(b"mass").ok_or("no name")?);
    assert!(rt; mass != NamePayload::decode(b"Mass ").ok_or("no name")?);
    Ok(())
}

// How many bytes stand in a name whose field says so many.
#[test]
fn lengths(rt: HostRuntime) {
    for (len, size) in [(4, 4), (128, 128), (0, 128), (129, 1)] {
        let name = Name {
            len,
            bytes: [b'x'; 128],
        };
        assert_eq!(rt; name.text().len(), size);
    }
}
