// The depth of a leaf as it is tested before a tree is written or handed out: for the writer and the loader alike.
#![tactic(auto)]

ghost use Rattle.std.specs.Prelude.{◌≡◌};
ghost use Rattle.stored.specs.Sound.{deep_enough};
ghost use Rattle.tree_tests.specs.InTurn.{depth_passes_lem};

// No leaf is deeper.
pub const MOST_DEPTH: usize = 21;

// Whether a leaf at this depth, in a level of so many rows, may have `own` of them: the level's rows halved as often, rounded down, or one more.
#[tactic(auto, using(std::proofs::lemmas::Bool::Decides::nat_tests), unfolding(stored::specs::Sound::deep_enough))]
fn size_fits(rows: usize, own: usize, depth: usize) -> bool
    ensures { result ≡ deep_enough rows own depth }
{
    if MOST_DEPTH < depth {
        return false;
    }
    let least = rows >> depth;
    least <= own && own - least <= 1
}

// The level of a leaf, as far as the tests of its leaves ask: how many rows it has, and whether it is the coarse one. The flag stays: the words of
// tree_tests for a leaf's tests take it too, and each contract would turn an enum back into it.
#[derive(Clone, Copy)]
pub struct LeafLevel {
    pub rows: usize,
    pub coarse: bool,
}

impl LeafLevel {
    // Whether the depth of a leaf passes, where the leaf before it is at `least`, which is 0 before the first: no depth is lower. The coarse domain
    // is at depth 0.
    #[tactic(auto, using(std::proofs::lemmas::Bool::Decides::nat_tests), unfolding(tree_tests::specs::InTurn::depth_passes_lem))]
    pub fn depth_passes(self, least: usize, own: usize, depth: usize) -> bool
        ensures { result ≡ depth_passes_lem self.coarse self.rows least own depth }
    {
        least <= depth && size_fits(self.rows, own, depth) && (!self.coarse || depth == 0)
    }
}
