// Writing a record, once there is room for all of it. Each function answers the place after what
// it wrote.
ghost use Rattle.std.specs.Prelude.{◌≡◌, ◌+◌, ◌*◌, ◌≤◌, length};
ghost use Rattle.std.proofs.lemmas.List.Edits.{sets};
ghost use Rattle.field.specs.Lists.{each};
ghost use Rattle.numbers.specs.Form.{bytes_of, width_of};
ghost use Rattle.trace.specs.Outcome.{lent};
ghost use Rattle.record.specs.Bytes.{wire_numbers, bytes_of_all, record_bytes};
ghost use Rattle.record.specs.Inside.{Held};

use crate::parts::{head, node_cells, num_wires, wire};
use numbers::write;
use trace::RecordHeader;

fn put(v: u64, out: &mut [u8], at: usize) -> usize
    requires { at + width_of v ≤ length out.old }
    ensures value { result ≡ at + width_of v }
    ensures out_after { out.new ≡ sets out.old at (bytes_of v) }
{
    write(v, out, at).unwrap()
}

fn put_numbers(numbers: &[u64], out: &mut [u8], at: usize) -> usize
    requires { at + length (bytes_of_all numbers.now) ≤ length out.old }
    ensures value { result ≡ at + length (bytes_of_all numbers.now) }
    ensures out_after { out.new ≡ sets out.old at (bytes_of_all numbers.now) }
{
    let mut next = at;
    for v in numbers {
        next = put(*v, out, next);
    }
    next
}

fn put_wires(values: &[u64], counts: &[u32], out: &mut [u8], at: usize) -> usize
    requires { (length values.now ≡ 2 * length counts.now) × (at + length (bytes_of_all (each (wire_numbers values.now counts.now) (length counts.now))) ≤ length out.old) }
    ensures value { result ≡ at + length (bytes_of_all (each (wire_numbers values.now counts.now) (length counts.now))) }
    ensures out_after { out.new ≡ sets out.old at (bytes_of_all (each (wire_numbers values.now counts.now) (length counts.now))) }
{
    let mut next = at;
    // By index, as in `wires_width`.
    for k in 0..counts.len() {
        next = put_numbers(&wire(values, counts, k), out, next);
    }
    next
}

pub fn put_record(
    header: RecordHeader,
    values: &[u64],
    counts: &[u32],
    nodes: &[u64],
    out: &mut [u8],
)
    requires { Held header (lent values.now counts.now nodes.now) × (length (record_bytes header (lent values.now counts.now nodes.now)) ≤ length out.old) }
    ensures { out.new ≡ sets out.old 0 (record_bytes header (lent values.now counts.now nodes.now)) }
{
    let num_wires = num_wires(header);
    let (reads, evals) = node_cells(header, nodes);
    let wires_at = put_numbers(&head(header), out, 0);
    let used_values = &values[..2 * num_wires];
    let used_counts = &counts[..num_wires];
    let declared_at = put_wires(used_values, used_counts, out, wires_at);
    let lengths = [num_wires as u64, u64::from(header.num_read)];
    let reads_at = put_numbers(&lengths, out, declared_at);
    let num_eval_at = put_numbers(reads, out, reads_at);
    let evals_at = put_numbers(&[u64::from(header.num_eval)], out, num_eval_at);
    put_numbers(evals, out, evals_at);
}
