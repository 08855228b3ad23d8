//! The order at two kinds of node: modules by name, and instances with a base.
ghost use Rattle.std.specs.Prelude.{◌≡◌, ◌+◌, min, map, IfOk, if◌then◌else◌, Some, None, filter, nat_le};
ghost use Rattle.table.specs.declared.order_tests.Fault.TheVariants.{Cycle, TooMany};
ghost use Rattle.table.specs.Graphs.{RequiredFirst};
ghost use Rattle.word.specs.Words.{same_spelling};

use crate::{Graph, Halt, required_first};
use std::alloc::{AllocError, Global};
use std::convert::Infallible;
use std::test::Fail;
use word::{Home, Word};

#[derive(Clone, Copy, PartialEq, Eq, Debug)]
pub struct Require {
    pub by: Word,
    pub from: Word,
    pub shift: u8,
}

/// Why modules have no order.
#[derive(Clone, Copy, PartialEq, Eq, Debug)]
pub enum Fault {
    Cycle(Word),
    TooMany(Word),
}

// The modules that one requires.
fn required_by(heap: Global, needs: &[Require], by: Word) -> Result<Vec<Word>, AllocError>
    ensures { IfOk result (λ v. v.items ≡ map (λ r. r.from) (filter (λ r. same_spelling r.by by) needs.now)) }
{
    let required = needs.iter().filter(|r| r.by == by);
    required.map(|r| r.from).collect(heap)
}

/// Modules by name, at most so many, with no cycle.
#[derive(Drop)]
pub struct Modules<'a> {
    needs: &'a [Require],
    most: usize,
}

impl<'a> Graph for Modules<'a> {
    type Node = Word;

    type Refusal = Fault;

    ghost plan = { λ g. record { successors = λ w. map (λ r. r.from) (filter (λ r. same_spelling r.by w) g.needs.now); meeting = λ w met. (if nat_le g.most met then Some (TooMany w) else None); cycle = λ w. Some (Cycle w) } };

    fn successors(
        &mut self,
        heap: Global,
        node: Word,
        met: usize,
    ) -> Result<Vec<Word>, Halt<Word, Fault>> {
        if met >= self.most {
            return Err(Halt::Refused(Fault::TooMany(node)));
        }
        Ok(required_by(heap, self.needs, node)?)
    }

    fn cycle(&mut self, node: Word) -> Result<(), Halt<Word, Fault>> {
        Err(Halt::Refused(Fault::Cycle(node)))
    }
}

/// Instances, which never meet themselves: nothing is refused.
#[derive(Drop)]
pub struct Instances<'a> {
    needs: &'a [Require],
}

impl<'a> Graph for Instances<'a> {
    type Node = Home;

    type Refusal = Infallible;

    ghost plan = { λ g. record { successors = λ h. map (λ r. record { «module» = r.from; base = min (h.base + r.shift) 255 }) (filter (λ r. same_spelling r.by h.«module») g.needs.now); meeting = λ _ _. None; cycle = λ _. None } };

    fn successors(
        &mut self,
        heap: Global,
        node: Home,
        _met: usize,
    ) -> Result<Vec<Home>, Halt<Home, Infallible>> {
        let required = self.needs.iter().filter(|r| r.by == node.module);
        let instances = required.map(|r| Home {
            module: r.from,
            base: node.base.saturating_add(r.shift),
        });
        Ok(instances.collect(heap)?)
    }

    fn cycle(&mut self, _node: Home) -> Result<(), Halt<Home, Infallible>> {
        Ok(())
    }
}

// The modules that one requires, as the laws of the order say.
fn in_order(heap: Global, needs: &[Require], root: Word) -> Result<Vec<Word>, Halt<Word, Fault>>
    ensures { IfOk result (λ v. RequiredFirst same_spelling (λ w. map (λ q. q.from) (filter (λ q. same_spelling q.by w) needs.now)) root v.items) }
{
    let mut graph = Modules { needs, most: 16 };
    required_first(heap, &mut graph, root, 17)
}

fn word(text: &[u8]) -> Result<Word, Fail> {
    Ok(Word::try_from(text).map_err(|_| Fail::new("not a word"))?)
}

fn edge(by: Word, from: Word, shift: u8) -> Require {
    Require { by, from, shift }
}

// a requires b and, one phase up, c, and both require d.
fn diamond(a: Word, b: Word, c: Word, d: Word) -> [Require; 4] {
    [edge(a, b, 0), edge(a, c, 1), edge(b, d, 0), edge(c, d, 0)]
}

#[test]
fn modules_in_order(rt: HostRuntime) -> Result<(), Fail> {
    let (a, b, c, d) = (word(b"a")?, word(b"b")?, word(b"c")?, word(b"d")?);
    let needs = diamond(a, b, c, d);
    let Ok(order) = in_order(rt.alloc(), &needs, a) else {
        return Err(Fail::new("refused"));
    };
    assert!(rt; order.len() == 4);
    assert!(rt; order[0] == d);
    assert!(rt; order[1] == b);
    assert!(rt; order[2] == c);
    assert!(rt; order[3] == a);
    Ok(())
}

#[test]
fn modules_refused(rt: HostRuntime) -> Result<(), Fail> {
    let (a, b, c, d) = (word(b"a")?, word(b"b")?, word(b"c")?, word(b"d")?);
    let needs = diamond(a, b, c, d);
    let mut few = Modules {
        needs: &needs,
        most: 3,
    };
    match required_first(rt.alloc(), &mut few, a, 3) {
        Err(Halt::Refused(Fault::TooMany(w))) => assert!(rt; w == c),
        _ => return Err(Fail::new("too many modules")),
    }
    let mut deep = Modules {
        needs: &needs,
        most: 4,
    };
    assert!(rt; required_first(rt.alloc(), &mut deep, a, 3).is_ok());
    match required_first(rt.alloc(), &mut deep, a, 2) {
        Err(Halt::TooDeep(w)) => assert!(rt; w == d),
        _ => return Err(Fail::new("too deep")),
    }
    let ring = [edge(a, b, 0), edge(b, a, 1)];
    let mut round = Modules {
        needs: &ring,
        most: 4,
    };
    match required_first(rt.alloc(), &mut round, a, 4) {
        Err(Halt::Refused(Fault::Cycle(w))) => {
            assert!(rt; w == a);
            Ok(())
        },
        _ => Err(Fail::new("a cycle")),
    }
}

fn is_instance(of: &Home, module: Word, base: u8) -> bool {
    *of == Home { module, base }
}

#[test]
fn instances_in_order(rt: HostRuntime) -> Result<(), Fail> {
    let (a, b, c, d) = (word(b"a")?, word(b"b")?, word(b"c")?, word(b"d")?);
    let needs = diamond(a, b, c, d);
    let mut graph = Instances { needs: &needs };
    let Ok(order) = required_first(rt.alloc(), &mut graph, Home { module: a, base: 0 }, 17) else {
        return Err(Fail::new("refused"));
    };
    assert!(rt; order.len() == 5);
    assert!(rt; is_instance(&order[0], d, 0));
    assert!(rt; is_instance(&order[1], b, 0));
    assert!(rt; is_instance(&order[2], d, 1));
    assert!(rt; is_instance(&order[3], c, 1));
    assert!(rt; is_instance(&order[4], a, 0));
    Ok(())
}
