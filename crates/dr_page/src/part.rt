//! Where the parts of page bodies lie.

ghost use Rattle.std.specs.Prelude.{◌≡◌, ◌≤◌, length, drop, IfOk, IfErr};
ghost use Rattle.dr_formats.specs.Reading.{got, bytes_of};
ghost use Rattle.dr_formats.specs.Page as page;
ghost use Rattle.dr_page.specs.Views.{shape_view};
ghost use Rattle.dr_page.specs.Reads.{WhereBad};
ghost use Rattle.dr_page.specs.Parts.{part_in, parts_in, IsInside, AreInside};

use crate::encoding::is_hybrid;
use crate::fault::PageFault;
use crate::shape::{PageForm, Shape};
use dr_bytes::Cut;

/// The bytes of the length before a part.
pub(crate) const LENGTH_BYTES: usize = 4;

/// Where a part of a body lies.
#[derive(Clone, Copy)]
pub(crate) struct Part {
    pub(crate) start: usize,
    pub(crate) end: usize,
}

/// Where the level parts of a body lie, without lengths before them, and where its values begin.
#[derive(Clone, Copy)]
pub(crate) struct BodyParts {
    pub(crate) repetitions: Part,
    pub(crate) definitions: Part,
    pub(crate) values: usize,
}

/// Where the parts of a page's body lie.
pub(crate) fn find_parts(shape: &Shape, bytes: &[u8]) -> Result<BodyParts, PageFault>
    ensures found { IfOk result (λ p. page.level_parts_by (shape_view shape.now).form (shape_view shape.now) bytes.now
        ≡ got (parts_in bytes.now p) (drop p.values bytes.now)) }
    ensures inside { IfOk result (λ p. AreInside bytes.now p) }
    ensures bad { IfErr result (λ e. WhereBad e
        (page.level_parts_by (shape_view shape.now).form (shape_view shape.now) bytes.now)) }
{
    match shape.form {
        PageForm::V1 => find_parts_v1(shape, bytes),
        PageForm::V2 => find_parts_v2(shape, bytes),
    }
}

/// Those of a V1 page: each level part has its length before it.
fn find_parts_v1(shape: &Shape, bytes: &[u8]) -> Result<BodyParts, PageFault>
    ensures found { IfOk result (λ p. page.level_parts_v1 (shape_view shape.now) bytes.now
        ≡ got (parts_in bytes.now p) (drop p.values bytes.now)) }
    ensures inside { IfOk result (λ p. AreInside bytes.now p) }
    ensures bad { IfErr result (λ e. WhereBad e (page.level_parts_v1 (shape_view shape.now) bytes.now)) }
{
    let repetitions = level_part(bytes, 0, shape.max_repetition, shape.repetition_encoding)?;
    let definitions = level_part(
        bytes,
        repetitions.end,
        shape.max_definition,
        shape.definition_encoding,
    )?;
    Ok(BodyParts {
        repetitions,
        definitions,
        values: definitions.end,
    })
}

/// Those of a V2 page: the level parts have the lengths that the header tells.
fn find_parts_v2(shape: &Shape, bytes: &[u8]) -> Result<BodyParts, PageFault>
    ensures found { IfOk result (λ p. page.level_parts_v2 (shape_view shape.now) bytes.now
        ≡ got (parts_in bytes.now p) (drop p.values bytes.now)) }
    ensures inside { IfOk result (λ p. AreInside bytes.now p) }
    ensures bad { IfErr result (λ e. WhereBad e (page.level_parts_v2 (shape_view shape.now) bytes.now)) }
{
    let repetitions = part_at(bytes, 0, shape.repetition_bytes as usize)?;
    let definitions = part_at(bytes, repetitions.end, shape.definition_bytes as usize)?;
    Ok(BodyParts {
        repetitions,
        definitions,
        values: definitions.end,
    })
}

/// The level part of a V1 page that begins at this place; none where the greatest level is 0.
fn level_part(bytes: &[u8], start: usize, greatest: u8, encoding: i64) -> Result<Part, PageFault>
    requires { start ≤ length bytes.now }
    ensures found { IfOk result (λ p. page.level_part greatest encoding (drop start bytes.now)
        ≡ got (part_in bytes.now p) (drop p.end bytes.now)) }
    ensures inside { IfOk result (λ p. IsInside bytes.now p) }
    ensures bad { IfErr result (λ e. WhereBad e (page.level_part greatest encoding (drop start bytes.now))) }
{
    if greatest == 0 {
        return Ok(Part { start, end: start });
    }
    if is_hybrid(encoding) {
        sized_part(bytes, start)
    } else {
        Err(PageFault::BadData)
    }
}

/// The part whose length begins at this place.
pub(crate) fn sized_part(bytes: &[u8], start: usize) -> Result<Part, PageFault>
    requires { start ≤ length bytes.now }
    ensures found { IfOk result (λ p. page.sized_part (drop start bytes.now)
        ≡ got (part_in bytes.now p) (drop p.end bytes.now)) }
    ensures inside { IfOk result (λ p. IsInside bytes.now p) }
    ensures bad { IfErr result (λ e. WhereBad e (page.sized_part (drop start bytes.now))) }
{
    let mut cut = Cut::new(&bytes[start..]);
    let length = cut.le32()?;
    part_at(bytes, start + LENGTH_BYTES, length as usize)
}

/// The part of this length at this place.
fn part_at(bytes: &[u8], start: usize, size: usize) -> Result<Part, PageFault>
    requires { start ≤ length bytes.now }
    ensures found { IfOk result (λ p. bytes_of page.bad_page size (drop start bytes.now)
        ≡ got (part_in bytes.now p) (drop p.end bytes.now)) }
    ensures inside { IfOk result (λ p. IsInside bytes.now p) }
    ensures bad { IfErr result (λ e. WhereBad e (bytes_of page.bad_page size (drop start bytes.now))) }
{
    if size > bytes.len() - start {
        return Err(PageFault::BadData);
    }
    Ok(Part {
        start,
        end: start + size,
    })
}

/// The bytes of a part of a body; none where it doesn't lie there.
pub(crate) fn part_bytes(bytes: &[u8], part: Part) -> &[u8]
    ensures { IsInside bytes.now part → result.now ≡ part_in bytes.now part }
{
    match bytes.get(part.start..part.end) {
        Some(part) => part,
        None => &[],
    }
}
