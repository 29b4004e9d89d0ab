// The tests of a transition: where they stand among all tests of a chart, and whether counts meet them.
ghost use Rattle.std.specs.Prelude.{◌≡◌, ◌≤◌, ◌<◌, length};
ghost use Rattle.comparison.specs.declared.Comparison.{Comparison};
ghost use Rattle.comparison.specs.Comparison.{met, code_of};
ghost use Rattle.model.specs.Chart.{Transition, Chart, Nth};
ghost use Rattle.model.specs.Run.{Counts, enabled as Run·enabled};
ghost use Rattle.chart_lists.specs.Lists.{all_tests};
ghost use Rattle.chart_lists.specs.Holds.{Holds};
ghost use Rattle.steps.specs.StepLists.{FirstTests, tests_in, count_lists};
ghost use Rattle.steps.specs.Counts.{CountsAgree};

use chart_lists::ChartLists;
use comparison::Comparison;

// Where the tests of each of the n transitions begin among all tests, and how many tests there are.
pub fn find_firsts(test_counts: &[u8], n: usize, firsts: &mut [u16]) -> u16
    requires n_value { (c : Chart) × (n ≡ length c.transitions) × Holds c (count_lists c test_counts.now) }
    requires n_in_bounds { n ≤ length firsts.old }
    ensures places { (c : Chart) → n ≡ length c.transitions → Holds c (count_lists c test_counts.now)
        → FirstTests c firsts.new }
    ensures number { (c : Chart) → n ≡ length c.transitions → Holds c (count_lists c test_counts.now)
        → result ≡ length (all_tests c.transitions) }
{
    let mut sum: u16 = 0;
    for i in 0..n {
        firsts[i] = sum;
        sum += u16::from(test_counts[i]);
    }
    sum
}

// One test, decided by the table of the comparisons.
fn test_met(code: u8, count: u32, constant: u32) -> bool
    ensures { (x : Comparison) → code ≡ code_of x → result ≡ met x count constant }
{
    let Ok(x) = Comparison::try_from(code) else {
        return false;
    };
    comparison::holds(x, u64::from(count), u64::from(constant))
}

// Whether transition number i can be taken at these counts, grown by the time that passed: the condition of 24.
pub fn enabled<'a>(lists: ChartLists<'a>, firsts: &'a [u16], i: usize, counts: &'a [u32]) -> bool
    requires i_in_bounds { (c : Chart) × (i < length c.transitions) × FirstTests c firsts.now
        × Holds c (tests_in c lists) }
    requires counts_len { length counts.now ≡ 64 }
    ensures { (c : Chart) → FirstTests c firsts.now
        → Holds c (tests_in c lists.entry)
        → (tr : Transition) → Nth c i tr → (v : Counts) → CountsAgree counts.now v → result ≡ Run·enabled c tr v }
{
    let first = firsts[i] as usize;
    let end = first + lists.test_counts[i] as usize;
    for k in first..end {
        let j = lists.timers[k] as usize;
        if !test_met(lists.codes[k], counts[j], lists.constants[k]) {
            return false;
        }
    }
    true
}
