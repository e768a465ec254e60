// The tree layer: misplaced and unfinished nodes.
ghost use Rattle.std.specs.Prelude.{◌≡◌, ℕ, ◌+◌, ◌<◌, ◌≤◌, Bool, true, List, [], length, drop, IfSome, IfOk, None};
ghost use Rattle.rules.specs.Faults.{Judgement, fault_of};
ghost use Rattle.rules.specs.Grounds.{TreeFault};
ghost use Rattle.rules.specs.Located.{located, elements_of};
ghost use Rattle.rules.specs.Markup.{Content, text, content_ok, Document, Marks, head};
ghost use Rattle.rules.specs.Values.{under as under_of};
ghost use Rattle.theory.specs.On.{content_on, ends};
ghost use Rattle.reader.specs.Tree.{step as step_of, finished, wants_child as wants_child_of, tree_first, answer};

use byte_classes::{Blank, NameByte, skip};
use rules::{Fault, Node};
use schema::{children, needs_child, tag};
use tags::{after, closing, content_start, tag_end};

/// How far the children of a node have come: the row of the last one, and how many of it there are.
#[derive(Clone, Copy)]
pub struct Progress {
    pub row: usize,
    pub count: usize,
}

/// No child yet.
const NONE_YET: Progress = Progress { row: 0, count: 0 };

impl Progress {
    /// How far a child of this name brings the children, if it may stand there.
    fn step(self, under: Option<Node>, name: &[u8]) -> Option<Progress>
        ensures is { result ≡ step_of (drop self.row (under_of under)) self.row self.count name.now }
        ensures within { IfSome result (λ s. s.row < length (under_of under)) }
    {
        let rows = children(under).get(self.row..)?;
        let mut count = self.count;
        for (i, child) in rows.iter().enumerate() {
            if tag(child.node) == name {
                if count < child.most {
                    return Some(Progress {
                        row: self.row + i,
                        count: count + 1,
                    });
                }
                return None;
            }
            if count < child.least {
                return None;
            }
            count = 0;
        }
        None
    }

    /// Whether the children may end here.
    fn may_end(self, under: Option<Node>) -> bool
        ensures { result ≡ finished under self.row self.count }
    {
        if self.count == 0 && wants_child(under) {
            return false;
        }
        match children(under).get(self.row..) {
            Some([last, later @ ..]) => {
                last.least <= self.count && later.iter().all(|child| child.least == 0)
            }
            _ => true,
        }
    }
}

/// Whether some child must stand under a node, whichever it is.
fn wants_child(under: Option<Node>) -> bool
    ensures { result ≡ wants_child_of under }
{
    matches!(under, Some(node) if needs_child(node))
}

/// Judges the elements from `at` on, which stand under a node and at most `depth` deep, up to an end tag or the end of the document, and gives the place of that.
fn level(document: &[u8], at: usize, under: Option<Node>, depth: u8) -> Result<usize, Fault>
    requires { at ≤ length document.now }
    ensures within { IfOk result (λ e. (at ≤ e) × (e ≤ length document.now)) }
    ensures judges { (c : Content) (rest : List ℕ) → content_ok depth c ≡ true → ends rest ≡ true → drop at document.now ≡ content_on c rest → result ≡ answer (tree_first under 0 0 (at + length (text c)) (located at c)) (at + length (text c)) }
{
    let mut so_far = NONE_YET;
    let mut i = at;
    'child: loop {
        let place = skip(Blank, document, i);
        if closing(document, place) {
            if so_far.may_end(under) {
                return Ok(place);
            }
            return Err(Fault::Unfinished { place });
        }
        let stop = skip(NameByte, document, place + 1);
        let close = tag_end(document, stop);
        if close >= document.len() || depth == 0 {
            return Ok(close);
        }
        so_far = so_far
            .step(under, &document[place + 1..stop])
            .ok_or(Fault::Misplaced { place })?;
        let child = Some(children(under)[so_far.row].node);
        let end = if document[close] != b'/' {
            level(document, close + 1, child, depth - 1)?
        } else if NONE_YET.may_end(child) {
            close
        } else {
            return Err(Fault::Unfinished { place });
        };
        i = after(document, end);
    }
}

/// Judges the tree of a document: the first node that is misplaced or unfinished, where the document is well-marked.
pub fn tree(document: &[u8]) -> Result<(), Fault>
    ensures { (m : Document) → Marks document.now m → Judgement (TreeFault None [] (length document.now) (elements_of m)) (fault_of result) }
{
    level(document, content_start(document), None, 6)?;
    Ok(())
}
