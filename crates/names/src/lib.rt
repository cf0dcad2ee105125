// A name's text, from the record and the name table that loading gave and the bytes that it loaded.
#![tactic(auto)]

ghost use Rattle.std.specs.Prelude.{◌≡◌};
ghost use Rattle.names.specs.NameText.{name_place, text_of, refusal_in, NameNumbers, NameMeans};

use refusals::Refusal;
use sheet_record::Record;

// Where a name stands in the sheet.
#[derive(Clone, Copy)]
pub struct Span {
    pub offset: usize,
    pub size: usize,
}

// The place of a name in the bytes that the sheet was loaded from.
#[tactic(auto, using(sheet_record::proofs::Ranges::few_names), unfolding(crate::specs::NameText::name_place))]
pub fn name_place(
    sheet: &[u8],
    record: Record,
    names: &[u32],
    number: usize,
) -> Result<Span, Refusal>
    ensures value { result ≡ name_place sheet.now «record» names.now number }
    ensures numbers { NameNumbers (refusal_in result) }
    ensures means { NameMeans sheet.now result }
{
    if !sheet_record::record_fits(record) || !sheet_record::names_held(record, names.len()) {
        return Err(Refusal::WrongRecord);
    }
    if record.names <= number {
        return Err(Refusal::NoName);
    }
    let offset = sheet_record::offset_at(names, number);
    let size = sheet_record::size_at(names, number);
    if sheet.len() < offset || sheet.len() - offset < size {
        return Err(Refusal::NoName);
    }
    Ok(Span { offset, size })
}

// The text of a name, a part of the sheet lent; the empty part where `name_place` refuses.
#[tactic(auto, unfolding(crate::specs::NameText::text_of, crate::specs::NameText::part_at))]
pub fn name<'a, 'b>(sheet: &'a [u8], record: Record, names: &'b [u32], number: usize) -> &'a [u8]
    ensures { result.now ≡ text_of sheet.now «record» names.now number }
{
    match name_place(sheet, record, names, number) {
        Ok(span) => &sheet[span.offset..span.offset + span.size],
        Err(_) => &sheet[..0],
    }
}
