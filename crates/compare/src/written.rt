// Whether WRITE's answers on a file are those of the plain writer.
use crate::agreement::{MOST, NO_SUCH_VARIANT, Numbered, area_too_short};
use crate::areas::begins;
use crate::asked::Asked;
use plain::{Plan, Variant};

// The largest area that WRITE is lent: a byte more than the longest file takes.
const BYTES: usize = plain_writer::BYTES + 1;

// What stands in an area before WRITE: no plan file has it.
const BLANK: u8 = b'#';

// So many variants of a plan are written out, from the first on, and the last.
const FEW: u32 = 64;

// WRITE has the plain writer's bytes, if they are within the area, and leaves every other byte.
fn write_in(file: &[u8], v: u32, area: &mut [u8], own: &[u8]) -> bool {
    match write::write(file, v, area) {
        Ok(length) => length == own.len() && begins(area, own, BLANK),
        Err(refusal) => {
            area.len() < own.len()
                && Numbered::of(refusal) == area_too_short(own.len())
                && begins(area, &[], BLANK)
        }
    }
}

// In an area of so many bytes.
fn write_agrees(file: &[u8], v: u32, room: usize, own: &[u8]) -> bool {
    if BYTES < room {
        return false;
    }
    let mut area = [BLANK; BYTES];
    write_in(file, v, &mut area[..room], own)
}

// In the largest area, in the least that has room, and in one a byte shorter.
fn variant_agrees(file: &[u8], v: u32, p: &Plan, chosen: &Variant) -> bool {
    let mut own = [0u8; BYTES];
    let bytes = plain_writer::write(file, p, chosen, &mut own);
    if bytes == 0 || BYTES < bytes {
        return false;
    }
    let text = &own[..bytes];
    write_agrees(file, v, BYTES, text)
        && write_agrees(file, v, bytes, text)
        && write_agrees(file, v, bytes - 1, text)
}

// WRITE refuses, and leaves the area.
fn refuses_in(file: &[u8], v: u32, area: &mut [u8], own: Numbered) -> bool {
    match write::write(file, v, area) {
        Ok(_) => false,
        Err(refusal) => Numbered::of(refusal) == own && begins(area, &[], BLANK),
    }
}

// The area may have room for every plan, or for none.
fn refuses(file: &[u8], v: u32, own: Numbered) -> bool {
    let mut area = [BLANK; BYTES];
    let mut short = [BLANK; 1];
    refuses_in(file, v, &mut area, own) && refuses_in(file, v, &mut short, own)
}

// The variants of an accepted plan and the first number past them.
pub fn compare_variants(file: &[u8], p: &Plan, variants: u32, asked: &mut Asked) {
    asked.add_test(refuses(file, variants, NO_SUCH_VARIANT));
    for (v, chosen) in (0..variants).zip(p.variants()) {
        if v < FEW || variants.checked_sub(1) == Some(v) {
            asked.add_variant(variant_agrees(file, v, p, &chosen));
        }
    }
}

// The refusal of another file, whatever the number.
pub fn compare_refused(file: &[u8], own: Numbered, asked: &mut Asked) {
    asked.add_test(refuses(file, 0, own) && refuses(file, MOST, own));
}
