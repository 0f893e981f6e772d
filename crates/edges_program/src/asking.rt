// Inputs, and the text that answers each.
use program::{MOST_TEXT, answer};
use std::io;

// The listing's input. Its ctx stands at 0, clk at 1, ptr at 2, num_vars at 3, num_eval at 4, n at 5, the
// variables at 6 to 9 and the gates at 10, 19, 28 and 33; it ends at 42, and p follows.
const LISTING: [u8; 52] = *b"\x00\x07\x00\x02\x04\x08\x03\x00\x04\x00\
\x85\x80\x80\x80\x90\x80\x80\x80\x20\
\x85\x80\x80\x80\x90\x80\x80\x80\x10\
\x83\x80\x80\x80\x0c\x81\x80\x80\x80\x88\x80\x80\x80\x10\
\x81\x80\x80\x80\xf0\xff\xff\xff\xff\x01";

fn ask(rt: &impl Print, case: &str, input: &[u8]) -> io::Result<()> {
    let mut out = [0; MOST_TEXT];
    let text = answer(input, &mut out);
    print!(rt; "program: {case} = ")?;
    rt.write_all(&out[..text.min(MOST_TEXT)])
}

pub fn inputs(rt: &impl Print, cases: &[(&str, &[u8])]) -> io::Result<()> {
    for &(case, input) in cases {
        ask(rt, case, input)?;
    }
    Ok(())
}

// The first bytes of the listing's input, of which those from a place on are others.
pub fn changed(rt: &impl Print, cases: &[(&str, usize, usize, &[u8])]) -> io::Result<()> {
    for &(case, len, at, patch) in cases {
        let mut input = LISTING;
        for (byte, new) in input.iter_mut().skip(at).zip(patch) {
            *byte = *new;
        }
        ask(rt, case, &input[..len.min(52)])?;
    }
    Ok(())
}
