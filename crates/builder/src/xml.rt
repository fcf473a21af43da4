// The entries over XML: the texts of a file as XML, and a file from the XML of texts.
ghost use Rattle.std.specs.Prelude.{◌≡◌, length};
ghost use Rattle.reading.specs.Output.{output_of};
ghost use Rattle.xml_reading.specs.Answers.{import_of};
ghost use Rattle.xml_export.specs.Under.{exported, output_left, words_left};
ghost use Rattle.builder.specs.Packed.{rewrite_packed};
ghost use Rattle.pack_told.specs.Told.{written_told};

// Writes the texts of a file as XML into the output, under a list of enum types: a refusal is packed, else the answer is the length of the XML.
pub fn xnb_export_xml(file: &[u8], enums: &[u8], words: &mut [u32], out: &mut [u8]) -> u64
    ensures value { result ≡ rewrite_packed (exported enums.now file.now words.old out.old) }
    ensures out_after { out.new ≡ output_left enums.now file.now words.old out.old }
    ensures words_after { words.new ≡ words_left enums.now file.now words.old out.old }
{
    match xml_export::export(file, enums, words, out) {
        Err(refusal) => crate::packed(refusal),
        Ok(size) => size as u64,
    }
}

// Writes the shortest file with the texts of XML into the output, and the file's length, or a refusal's place: the answer is the refusal's number, or 0.
pub fn xnb_import_xml(xml: &[u8], out: &mut [u8], at: &mut u64) -> u32
    ensures at_after { (result, at.new) ≡ written_told (import_of xml.now (length out.old)) }
    ensures out_after { out.new ≡ output_of (import_of xml.now (length out.old)) out.old }
{
    match xml_import::import(xml, out) {
        Err(refusal) => {
            *at = refusal.place as u64;
            refusal.number
        }
        Ok(size) => {
            *at = size as u64;
            0
        }
    }
}
