//! An instance is written, and the length of its text.
ghost use Rattle.std.specs.Prelude.{◌≡◌, false, length, IfOk, IsTrue};
ghost use Rattle.plan_desk.specs.Written.{WritesText};
ghost use Rattle.json_grammar.specs.laws.Spelling.{spell};
ghost use Rattle.instance_writer.specs.text.Styles.{decimals};
ghost use Rattle.instance_writer.specs.text.Written.{whole_list, instance_text};
ghost use Rattle.instance_writer.specs.Steps.{fields_text, number_fields};
ghost use Rattle.instance_writer.specs.Views.{IsViewOf};

use crate::count::ByteCount;
use crate::exclusions::put_exclusions;
use crate::file::OpenFile;
use crate::interventions::put_interventions;
use crate::marks::{put_key, put_whole};
use crate::memory::TextBytes;
use crate::numerals::{Decimals, Numerals};
use crate::resources::put_resources;
use crate::seasons::put_seasons;
use crate::sink::Sink;
use crate::view::InstanceView;
use instance_model::Instance;
use plan_desk::{Desk, Failed};
use std::alloc::{AllocError, Global};

/// Writes the text of what is seen of an instance, with 12 decimals of counts and 6 of millionths, to the end of the
/// file that is open, in one pass. Takes no memory.
pub fn write_instance<V: InstanceView, D: Desk>(view: &V, desk: &mut D) -> Result<(), Failed>
    requires opened { IsTrue (D.shows desk.old).output.opened }
    requires shown { IsViewOf (V.base view.now) (V.tables view.now) }
    ensures { WritesText (instance_text decimals (V.tables view.now)) (D.shows desk.old) (D.shows desk.new) result }
{
    let mut file = OpenFile::new(desk);
    put_instance::<_, Decimals, _>(view, &mut file);
    file.end()
}

/// The length of that text in bytes. Takes no memory.
pub fn instance_length<V: InstanceView>(view: &V) -> u64
    requires { IsViewOf (V.base view.now) (V.tables view.now) }
    ensures { result ≡ length (instance_text decimals (V.tables view.now)) }
{
    let mut count = ByteCount::zero();
    put_instance::<_, Decimals, _>(view, &mut count);
    count.count()
}

/// The text of what is seen of an instance, with counts and millionths as they are spelled by `N`. Fails only where
/// memory is refused.
pub fn instance_bytes<V: InstanceView, N: Numerals>(
    alloc: Global,
    view: &V,
) -> Result<Vec<u8>, AllocError>
    requires { IsViewOf (V.base view.now) (V.tables view.now) }
    ensures { IfOk result (λ text. text.items ≡ instance_text N.style (V.tables view.now)) }
{
    let mut text = TextBytes::empty(alloc);
    put_instance::<_, N, _>(view, &mut text);
    text.into_bytes()
}

fn put_instance<V: InstanceView, N: Numerals, S: Sink>(view: &V, sink: &mut S)
    requires ready { S.IsReady sink.old }
    requires shown { IsViewOf (V.base view.now) (V.tables view.now) }
    ensures ready { S.IsReady sink.new }
    ensures text { S.Takes (instance_text N.style (V.tables view.now)) sink.old sink.new }
{
    sink.put(b"{");
    put_key(true, b"Resources", sink);
    put_resources::<N, _>(view.instance(), sink);
    put_key(false, b"Seasons", sink);
    put_seasons(view.instance(), sink);
    put_key(false, b"Interventions", sink);
    put_interventions::<_, N, _>(view, sink);
    put_key(false, b"Exclusions", sink);
    put_exclusions(view.instance(), sink);
    put_numbers::<N, _>(view.instance(), sink);
    sink.put(b"}");
}

fn put_numbers<N: Numerals, S: Sink>(inst: &Instance, sink: &mut S)
    requires ready { S.IsReady sink.old }
    ensures ready { S.IsReady sink.new }
    ensures text { S.Takes (fields_text false (number_fields N.style inst.now)) sink.old sink.new }
{
    put_key(false, b"T", sink);
    put_whole(true, inst.periods(), sink);
    put_key(false, b"Scenarios_number", sink);
    put_scenarios(inst, sink);
    put_key(false, b"Quantile", sink);
    N::put_part(inst.quantile(), sink);
    put_key(false, b"Alpha", sink);
    N::put_part(inst.alpha(), sink);
}

fn put_scenarios<S: Sink>(inst: &Instance, sink: &mut S)
    requires ready { S.IsReady sink.old }
    ensures ready { S.IsReady sink.new }
    ensures text { S.Takes (spell (whole_list inst.now.scenarios)) sink.old sink.new }
{
    inst.fits();
    sink.put(b"[");
    let mut first = true;
    for k in 0..inst.periods() {
        put_whole(first, inst.scenarios(k + 1), sink);
        first = false;
    }
    sink.put(b"]");
}
