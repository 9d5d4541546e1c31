// The node that comes next, whose parts are numbered by the sizes of those before them.
ghost use Rattle.std.specs.Prelude.{◌≡◌, ◌+◌, ◌<◌, ◌≤◌, length, drop};
ghost use Rattle.words.specs.Word.{WORD};
ghost use Rattle.rows.specs.Rows.{hop};
ghost use Rattle.token_words.specs.Items.{Nested};

// Node n, where the sizes of the nodes behind it stand from `from` on.
#[derive(Clone, Copy)]
pub struct Node<'a> {
    pub n: u16,
    pub sizes: &'a [u16],
    pub from: usize,
    pub ghost nested: { Nested sizes.now },
    pub ghost few_nodes: { n + 1 + length sizes.now < WORD },
    pub ghost from_in_bounds: { from ≤ WORD },
}

impl Node<'_> {
    // The number of the part that comes behind so many other parts.
    pub fn part(&self, parts: usize) -> u16
        requires { parts ≤ 3 }
        ensures { result ≡ self.now.n + 1 + hop parts (drop self.now.from self.now.sizes.now) }
    {
        self.n + 1 + hop(self.sizes, self.from, parts) as u16
    }
}

// How many nodes so many expressions have together that follow each other from node `from` on.
pub fn hop(sizes: &[u16], from: usize, parts: usize) -> usize
    requires { (parts ≤ 3) × (from ≤ WORD) }
    ensures { result ≡ hop parts (drop from sizes.now) }
{
    let mut at = from;
    for _j in 0..parts {
        at += sizes.get(at).copied().unwrap_or(0) as usize;
    }
    at - from
}
