// The state that set-up makes.
ghost use Rattle.std.specs.Prelude.{◌≡◌, List, ◌≤◌, length};
ghost use Rattle.lists.specs.Lists.{up_to};
ghost use Rattle.model.specs.Chart.{Chart};
ghost use Rattle.controller_model.specs.Heads.{head_counts};
ghost use Rattle.controller_model.specs.Headers.{HeadersOf};
ghost use Rattle.controller_model.specs.Serving.{standing};
ghost use Rattle.controller_model.specs.Controlling.{start_head, start_counts};
ghost use Rattle.controller.specs.Judged.{CountsFit};

use crate::counts::write_counts;
use chart_lists::Header;
use controller_model::{Head, MOST_HEADS, Parts};
use heads::parts::{begin_of, part_of};

// A head of which nothing is said yet, or that there is not.
const NO_HEAD: Head = Head {
    location: 0,
    time: 0,
    waiting: 0,
    event: 0,
    waiting_time: 0,
};

// A head at the initial location of its chart at tick 0, no event waiting.
fn start_head(header: Header) -> Head
    ensures { result ≡ standing header.initial 0 }
{
    Head {
        location: u64::from(header.initial),
        time: 0,
        waiting: 0,
        event: 0,
        waiting_time: 0,
    }
}

// The n heads at the initial locations of their charts at tick 0, no event waiting.
pub fn start_heads(n: usize, headers: [Header; MOST_HEADS]) -> [Head; MOST_HEADS]
    requires { n ≤ 8 }
    ensures { (cs : List Chart) → n ≡ length cs → HeadersOf cs headers → result ≡ up_to (start_head cs) 8 }
{
    let mut heads = [NO_HEAD; MOST_HEADS];
    for h in 0..n {
        heads[h] = start_head(headers[h]);
    }
    heads
}

// The starting counts of n heads from the beginnings of their blocks on, and 0 for the rest of the board.
pub fn start_counts(counts: &[u32], parts: Parts, n: usize, blocks: [u64; MOST_HEADS]) -> [u32; 64]
    requires n_bound { n ≤ 8 }
    requires counts_fit { CountsFit blocks (head_counts counts.now parts) n }
    ensures { result ≡ start_counts blocks (head_counts counts.now parts) n }
{
    let mut all = [0u32; 64];
    for h in 0..n {
        let part = part_of(counts, parts.lengths, h);
        write_counts(&mut all, begin_of(64, blocks, h), part);
    }
    all
}
