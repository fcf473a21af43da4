// What is demanded of text lists as XML (Req 13), as contracts: each function calls the code, and is here for what it ensures
// (specs/Import.antt, specs/Export.antt and specs/Trips.antt, from top to bottom). Of an export, the answer of the code itself fixes a load's refusals.
#![tactic(auto)]

ghost use Rattle.std.specs.Prelude.{◌≡◌, length};
ghost use Rattle.load.specs.Under.{load_under};
ghost use Rattle.load.specs.Loads as loading;
ghost use Rattle.xml_export.specs.Under.{export_under};
ghost use Rattle.xml_export.specs.Contract.{answer_of};
ghost use Rattle.xml_theorems.specs.Import.{Imports};
ghost use Rattle.xml_theorems.specs.Export.{ExportsFile, Behind};
ghost use Rattle.xml_theorems.specs.Trips.{KeepsTexts, ExportsSame};

use answers::Refusal;
use load::Loading;

// XML that is imported.
pub fn import_exact(xml: &[u8], out: &mut [u8]) -> Result<usize, Refusal>
    ensures { Imports xml.now out.old out.new result }
{
    xml_import::import(xml, out)
}

// A file that is exported, under a list of enum types.
pub fn export_exact(
    file: &[u8],
    enums: &[u8],
    words: &mut [u32],
    out: &mut [u8],
) -> Result<usize, Refusal>
    ensures exports_file { ExportsFile enums.now file.now (length words.old) words.new
        out.old out.new result }
    ensures value { result ≡ answer_of (export_under enums.now file.now (length words.old) (length out.old)) }
{
    xml_export::export(file, enums, words, out)
}

// The answers of a load and of an export.
#[derive(Clone, Copy, Debug, PartialEq, Eq)]
pub struct Judged {
    pub loaded: Loading,
    pub exported: Result<usize, Refusal>,
}

// A file that is loaded and exported, under one list of enum types.
fn load_and_export(file: &[u8], enums: &[u8], words: &mut [u32], out: &mut [u8]) -> Judged
    ensures behind { Behind result }
    ensures loaded_value { result.loaded
        ≡ loading.answer_of file.now (load_under enums.now file.now (length words.old)) }
    ensures exported_value { result.exported
        ≡ answer_of (export_under enums.now file.now (length words.old) (length out.old)) }
{
    let loaded = load::load(file, enums, words);
    let exported = xml_export::export(file, enums, words, out);
    Judged { loaded, exported }
}

// A file that is exported, and its XML then imported, into a second output.
fn export_then_import(
    file: &[u8],
    enums: &[u8],
    words: &mut [u32],
    out: &mut [u8],
    second: &mut [u8],
) -> Result<usize, Refusal>
    ensures { KeepsTexts enums.now file.now (length words.old) (length out.old)
        second.old second.new result }
{
    let n = export_exact(file, enums, words, out)?;
    import_exact(&out[..n], second)
}

// XML that is imported, and the file then exported, under a list of enum types, into a second output.
fn import_then_export(
    xml: &[u8],
    enums: &[u8],
    words: &mut [u32],
    out: &mut [u8],
    second: &mut [u8],
) -> Result<usize, Refusal>
    ensures { ExportsSame enums.now xml.now (length words.old) (length out.old)
        second.old second.new result }
{
    let n = import_exact(xml, out)?;
    export_exact(&out[..n], enums, words, second)
}
