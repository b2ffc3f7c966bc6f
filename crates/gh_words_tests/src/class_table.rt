//! The table of size classes against the numbers that it was drawn up with.
use gh_class::{CLASSES, Class, class_of};
use std::test::Fail;

#[test]
fn has_the_classes_of_the_table(rt: HostRuntime) -> Result<(), Fail> {
    // slot bytes, pages, slots
    let table = [
        (8, 1, 1024),
        (16, 1, 512),
        (24, 1, 341),
        (32, 1, 256),
        (48, 1, 170),
        (64, 1, 128),
        (80, 1, 102),
        (96, 1, 85),
        (112, 1, 73),
        (128, 1, 64),
        (160, 1, 51),
        (192, 1, 42),
        (256, 1, 32),
        (320, 1, 25),
        (384, 1, 21),
        (512, 1, 16),
        (768, 1, 10),
        (1024, 1, 8),
        (1408, 2, 11),
        (2048, 1, 4),
        (3072, 3, 8),
        (4096, 1, 2),
        (8192, 1, 1),
        (16384, 2, 1),
        (32768, 4, 1),
    ];
    let mut number = 0u32;
    for (bytes, pages, slots) in table {
        let class = class_of(bytes).ok_or("no class")?;
        let found = (
            class.number(),
            class.slot_bytes(),
            class.pages(),
            class.slots(),
        );
        assert_eq!(rt; found, (number, bytes, pages, slots));
        number = number.wrapping_add(1);
    }
    assert_eq!(rt; (number, Class::from_number(number)), (CLASSES, None));
    Ok(())
}
