//! A tree from its events.

ghost use Rattle.std.specs.Prelude.{◌≡◌, [], None, OnOk, option_map, ◌<◌, ◌+◌, ◌^◌};
ghost use Rattle.json_tree.specs.Building.{built_of, HasRoom};
ghost use Rattle.std.specs.Str.{IsUtf8};
ghost use Rattle.json_grammar.specs.Tree as tree;
ghost use Rattle.json_grammar.specs.Trees.{tree_view};
ghost use Rattle.json_grammar.specs.laws.Builder.{bt, attach, feed};
ghost use Rattle.json_grammar.specs.laws.Sound.{IsSoundEvent};
ghost use Rattle.json_machine.specs.Machines.{event_of};

use json_grammar::{Member, Node, NumText, Text, Tree};
use json_machine::RawEvent;
use std::alloc::{AllocError, Global};

/// An array or an object that is open.
#[derive(Drop)]
pub enum Level {
    List(u64, Vec<Tree>),
    Object(u64, Vec<Member>),
    Pair(u64, Vec<Member>, u64, u64, Text),
}

#[derive(Drop)]
pub struct Builder {
    levels: Vec<Level>,
    done: Option<Tree>,
}

impl Builder {
    pub fn new(alloc: Global) -> Builder
        ensures { built_of result ≡ bt [] None }
    {
        Builder {
            levels: Vec::new(alloc),
            done: None,
        }
    }

    #[tactic(auto, using(crate::proofs::Levelling::levelling))]
    fn attach(&mut self, tree: Tree) -> Result<(), AllocError>
        ensures { OnOk result (built_of self.new ≡ attach (tree_view tree) (built_of self.old)) }
    {
        match self.levels.pop() {
            None => self.done = Some(tree),
            Some(Level::List(at, mut items)) => {
                items.push(tree)?;
                self.levels.push(Level::List(at, items))?;
            }
            Some(Level::Pair(at, mut members, key_at, key_end, key)) => {
                members.push(Member {
                    at: key_at,
                    end: key_end,
                    key,
                    value: tree,
                })?;
                self.levels.push(Level::Object(at, members))?;
            }
            Some(Level::Object(at, members)) => {
                self.levels.push(Level::Object(at, members))?;
            }
        }
        Ok(())
    }

    #[tactic(auto, using(crate::proofs::Levelling::levelling), unfolding(json_grammar::specs::laws::Builder::feed))]
    pub fn feed(&mut self, alloc: Global, event: RawEvent) -> Result<(), AllocError>
        requires room { HasRoom event }
        requires sound { IsSoundEvent (event_of event) }
        ensures { OnOk result (built_of self.new ≡ feed (event_of event) (built_of self.old)) }
    {
        match event {
            RawEvent::Begin(at, false) => self.levels.push(Level::List(at, Vec::new(alloc)))?,
            RawEvent::Begin(at, true) => self.levels.push(Level::Object(at, Vec::new(alloc)))?,
            RawEvent::Finish(at) => self.close(at)?,
            RawEvent::Key(at, end, text) => self.key(at, end, text)?,
            RawEvent::Null(at) => self.attach(Tree {
                at,
                end: at + 4,
                node: Node::Null,
            })?,
            RawEvent::Bool(at, value) => self.attach(Tree {
                at,
                end: if value { at + 4 } else { at + 5 },
                node: Node::Bool(value),
            })?,
            RawEvent::Num(at, bytes) => self.attach(Tree {
                at,
                end: at + bytes.len() as u64,
                node: Node::Num(NumText::of_token(bytes)),
            })?,
            RawEvent::Text(at, end, text) => self.attach(Tree {
                at,
                end,
                node: Node::Text(Text::of_bytes(text)),
            })?,
        }
        Ok(())
    }

    #[tactic(auto, using(crate::proofs::Levelling::levelling), unfolding(json_grammar::specs::laws::Builder::feed))]
    fn close(&mut self, at: u64) -> Result<(), AllocError>
        requires { at + 1 < 2 ^ 64 }
        ensures { OnOk result (built_of self.new ≡ feed (tree.finish at) (built_of self.old)) }
    {
        let (begin, node) = match self.levels.pop() {
            None => return Ok(()),
            Some(Level::List(begin, items)) => (begin, Node::List(items)),
            Some(Level::Object(begin, members)) => (begin, Node::Object(members)),
            Some(Level::Pair(begin, members, _key_at, _key_end, _key)) => (
                begin,
                Node::Object(members),
            ),
        };
        self.attach(Tree {
            at: begin,
            end: at + 1,
            node,
        })
    }

    #[tactic(auto, using(crate::proofs::Levelling::levelling), unfolding(json_grammar::specs::laws::Builder::feed))]
    fn key(&mut self, at: u64, end: u64, bytes: Vec<u8>) -> Result<(), AllocError>
        requires { IsUtf8 bytes.items }
        ensures { OnOk result (built_of self.new ≡ feed (tree.key at end bytes.items) (built_of self.old)) }
    {
        let text = Text::of_bytes(bytes);
        match self.levels.pop() {
            None => {}
            Some(Level::List(begin, items)) => self.levels.push(Level::List(begin, items))?,
            Some(Level::Object(begin, members)) => {
                self.levels
                    .push(Level::Pair(begin, members, at, end, text))?;
            }
            Some(Level::Pair(begin, members, _key_at, _key_end, _key)) => {
                self.levels
                    .push(Level::Pair(begin, members, at, end, text))?;
            }
        }
        Ok(())
    }

    pub fn finish(self) -> Option<Tree>
        ensures { option_map tree_view result ≡ (built_of self).done }
    {
        let Builder { levels: _, done } = self;
        done
    }
}
