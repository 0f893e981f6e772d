// How many bytes a record takes.
ghost use Rattle.std.specs.Prelude.{◌≡◌, ◌*◌, ◌^◌, ◌≤◌, length};
ghost use Rattle.field.specs.Lists.{each};
ghost use Rattle.trace.specs.Outcome.{lent};
ghost use Rattle.record.specs.Bytes.{wire_numbers, bytes_of_all, record_bytes};
ghost use Rattle.record.specs.Inside.{Held};

use crate::parts::{head, node_cells, num_wires, wire};
use numbers::width;
use trace::RecordHeader;

fn numbers_width(numbers: &[u64]) -> usize
    requires { length numbers.now ≤ 2 ^ 40 }
    ensures { result ≡ length (bytes_of_all numbers.now) }
{
    numbers.iter().map(|v| width(*v)).sum()
}

fn wires_width(values: &[u64], counts: &[u32]) -> usize
    requires { (length values.now ≡ 2 * length counts.now) × (length counts.now ≤ 2 ^ 40) }
    ensures { result ≡ length (bytes_of_all (each (wire_numbers values.now counts.now) (length counts.now))) }
{
    let mut total: usize = 0;
    // By index: over `chunks_exact(2).zip(counts)`, whose pairs no lemma places, the total's proof did not close.
    for k in 0..counts.len() {
        total += numbers_width(&wire(values, counts, k));
    }
    total
}

#[tactic(auto, using(crate::proofs::Widths::taken_most, crate::proofs::Widths::handed_most))]
pub fn record_width(header: RecordHeader, values: &[u64], counts: &[u32], nodes: &[u64]) -> usize
    requires { Held header (lent values.now counts.now nodes.now) }
    ensures { result ≡ length (record_bytes header (lent values.now counts.now nodes.now)) }
{
    let num_wires = num_wires(header);
    let (reads, evals) = node_cells(header, nodes);
    numbers_width(&head(header))
        + wires_width(&values[..2 * num_wires], &counts[..num_wires])
        + numbers_width(&[num_wires as u64, u64::from(header.num_read)])
        + numbers_width(reads)
        + numbers_width(&[u64::from(header.num_eval)])
        + numbers_width(evals)
}
