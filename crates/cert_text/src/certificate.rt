// What a certificate is.

use cost_tables::Tables;
use disk_gen::DiskTables;

/// A proof that a list is the least of some lists, for a number of steps and a book.
#[derive(Drop)]
pub enum Certificate {
    /// A number `k` of repeats, and its bound for N steps and c slots: N + k · N − β(c + 1, k − 1). For every `k` no
    /// valid list takes fewer forward steps.
    Revolve { k: u32, value: u64 },
    /// The threshold of a multistage list. Each place of its stack on the faster level saves at least so much there.
    /// Each on the slower level would save at most so much.
    Places { threshold: u64 },
    /// Tables of least costs over the levels of a book. No list whose images form a stack undercuts an under-table.
    Nested { tables: Tables },
    /// Tables of least costs over memory and an unlimited disk. No list of the disk class undercuts a disk under-table.
    Disk { tables: DiskTables },
}
