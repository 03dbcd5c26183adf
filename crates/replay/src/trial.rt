// One record.
use response::respond_alone;

// Whether a record has the expected text, with the lists that the program `refine` holds. A difference is shown: the record in hexadecimal, the expected
// text, and the text that was given.
pub(crate) fn run(rt: &HostRuntime, record: &[u8], expected: &[u8]) -> bool {
    let mut text = [0u8; 4096];
    let n = respond_alone(record, &mut text);
    let given = &text[..n];
    if given != expected {
        let _ = print!(rt; "\nrecord ");
        for b in record {
            let _ = print!(rt; "{b:02x}");
        }
        let _ = print!(rt; "\nexpected\n");
        let _ = rt.write_all(expected);
        let _ = print!(rt; "given\n");
        let _ = rt.write_all(given);
    }
    given == expected
}
