// Refusal 6, but for ctrl lines: whether the counts of the function slice agree. Of a text that passed 3 to 5 every list that is looked at is
// there whole.
#![tactic(auto)]

ghost use Rattle.std.specs.Prelude.{◌≡◌, ◌<◌};
ghost use Rattle.func.specs.Layout.{nodes, regions};
ghost use Rattle.func.specs.Store.{count};
ghost use Rattle.check_counts.specs.Test.{child_count_in, child_in, kind_in, ends_test, case_test, body_test, cases_test, node_test, nodes_test, func_test, counts_test, CountsSafe};

use func::NodeKind;
use func_pools::{Pool, count};
use func_rows::{Column, RowList, row_count, row_element, row_kind, row_word};

// The slice of such a text.
#[derive(Clone, Copy)]
struct Counted<'a> {
    words: &'a [u32],
    ghost safe: { CountsSafe words.now },
}

impl<'a> Counted<'a> {
    // The last node of region c is an exit, by the number of its kind: a row of no text may hold one above the last kind's, which is no exit's.
    fn ends_in_exit(&self, c: usize) -> bool
        requires { c < count regions self.now.words.now }
        ensures { result ≡ ends_test self.now.words.now c }
    {
        let m = row_count(self.words, RowList::RegionNodes, c);
        if m == 0 {
            return false;
        }
        let n = row_element(self.words, RowList::RegionNodes, c, m - 1);
        row_word(self.words, Column::NodeKind, n) == u32::from(NodeKind::Exit)
    }

    // Case i of select n has no inputs, and as many outputs as the node, or none where its last node is an exit.
    fn case_fits(&self, n: usize, i: usize) -> bool
        requires { (n < count nodes self.now.words.now) × (i < child_count_in self.now.words.now n) }
        ensures { result ≡ case_test self.now.words.now n (child_in self.now.words.now n i) }
    {
        let c = row_element(self.words, RowList::NodeChildren, n, i);
        let r = row_count(self.words, RowList::RegionResults, c);
        row_count(self.words, RowList::RegionIns, c) == 0
            && (r == row_count(self.words, RowList::NodeOuts, n) || r == 0 && self.ends_in_exit(c))
    }

    // All cases do.
    fn cases_fit(&self, n: usize) -> bool
        requires { n < count nodes self.now.words.now }
        ensures { result ≡ cases_test self.now.words.now n }
    {
        let m = row_count(self.words, RowList::NodeChildren, n);
        (0..m).all(|i| self.case_fits(n, i))
    }

    // Loop n has a value for its condition and one for each input of its body, which has as many outputs as inputs.
    fn loop_fits(&self, n: usize) -> bool
        requires { (n < count nodes self.now.words.now) × (kind_in self.now.words.now n ≡ NodeKind.Loop) }
        ensures { result ≡ body_test self.now.words.now n (child_in self.now.words.now n 0) }
    {
        let c = row_element(self.words, RowList::NodeChildren, n, 0);
        let ins = row_count(self.words, RowList::RegionIns, c);
        row_count(self.words, RowList::NodeValues, n) == ins + 1
            && row_count(self.words, RowList::RegionResults, c) == ins
    }

    // Node n fits by its kind.
    fn node_fits(&self, n: usize) -> bool
        requires { n < count nodes self.now.words.now }
        ensures { result ≡ node_test self.now.words.now n }
    {
        match row_kind(self.words, n) {
            NodeKind::Block => true,
            NodeKind::SelectBool => {
                row_count(self.words, RowList::NodeChildren, n) == 2 && self.cases_fit(n)
            }
            NodeKind::SelectInst => {
                0 < row_count(self.words, RowList::NodeChildren, n) && self.cases_fit(n)
            }
            NodeKind::Loop => self.loop_fits(n),
            NodeKind::Exit => true,
        }
    }

    // All nodes do.
    fn nodes_fit(&self) -> bool
        ensures { result ≡ nodes_test self.now.words.now }
    {
        let m = count(self.words, Pool::Nodes) as usize;
        (0..m).all(|n| self.node_fits(n))
    }

    // The body has the parameters for inputs and one output at most, none with ctrl lines. An imported function has no body.
    #[tactic(auto, unfolding(crate::specs::Test::func_test))]
    fn body_fits(&self) -> bool
        ensures { result ≡ func_test self.now.words.now }
    {
        if count(self.words, Pool::Regions) == 0 {
            return true;
        }
        let p = count(self.words, Pool::Params) as usize;
        if row_count(self.words, RowList::RegionIns, 0) != p {
            return false;
        }
        let n = row_count(self.words, RowList::RegionResults, 0);
        if count(self.words, Pool::Ctrls) == 0 {
            return n <= 1;
        }
        n == 0
    }
}

// The text in the function slice passes refusal 6, but for its ctrl lines.
#[tactic(auto, unfolding(crate::specs::Test::counts_test))]
pub fn counts(func: &[u32]) -> bool
    requires { CountsSafe func.now }
    ensures { result ≡ counts_test func.now }
{
    let counted = Counted { words: func };
    counted.body_fits() && counted.nodes_fit()
}
