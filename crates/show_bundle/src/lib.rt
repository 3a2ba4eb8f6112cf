// A line for a sheet that is taken out of a bundle, and for a bundle that is made.

#![tactic(auto)]

use std::io::Result;

// A bundle and the number of a sheet, by the sheet.
pub fn bundle_case(rt: &impl Print, bundle: &[u8], n: u64) -> Result<()> {
    show::show_bytes(rt, b"bundle", bundle)?;
    print!(rt; ", number {n}")?;
    if let Err(refusal) = bundle::check_bundle(bundle, n) {
        return show::end_refused(rt, refusal);
    }
    show::show_bytes(rt, b": sheet", bundle::bundle_sheet(bundle, n))?;
    show::show(rt, b"\n")
}

// Sheets end to end, by their bundle.
pub fn sheets_case(rt: &impl Print, sheets: &[u8]) -> Result<()> {
    let mut bundle = [show::UNWRITTEN; 64];
    show::show_bytes(rt, b"sheets", sheets)?;
    match bundle_write::sheets_to_bundle(sheets, &mut bundle) {
        Ok(_) => {
            show::show_bytes(rt, b": bundle", show::front(&bundle))?;
            show::show(rt, b"\n")
        }
        Err(refusal) => show::end_refused(rt, refusal),
    }
}
