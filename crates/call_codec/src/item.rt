// Items with commas between them.
ghost use Rattle.std.specs.Prelude.{◌≡◌, ℕ, List, []};
ghost use Rattle.text_sinks.specs.Told.{Wrote};
ghost use Rattle.call_codec.specs.Answers.{items_behind, list_text};

use gds_causes::Failed;
use text_sinks::TextSink;

/// What has a text.
pub(crate) trait Item {
    /// The text.
    ghost text: { Self → List ℕ };

    /// Puts the text.
    fn put_to<T: TextSink>(&self, sink: &mut T) -> Result<(), Failed>
        ensures wrote { Wrote result (T.told sink.old) (T.told sink.new) (text self.now) };
}

// Puts the texts of items with commas between them.
fn put_items<T: TextSink, I: Item>(sink: &mut T, items: &[I]) -> Result<(), Failed>
    ensures wrote { Wrote result (T.told sink.old) (T.told sink.new) (items_behind I.text [] items.now) }
{
    let mut before: &[u8] = b"";
    for item in items {
        sink.put(before)?;
        item.put_to(sink)?;
        before = b",";
    }
    Ok(())
}

/// Puts the texts of items in brackets.
#[tactic(auto, using(text_sinks::proofs::ToldLemmas::wrote_then, text_sinks::proofs::ToldLemmas::stops_more, text_sinks::proofs::ToldLemmas::stops_then))]
pub(crate) fn put_list<T: TextSink, I: Item>(sink: &mut T, items: &[I]) -> Result<(), Failed>
    ensures wrote { Wrote result (T.told sink.old) (T.told sink.new) (list_text I.text items.now) }
{
    sink.put(b"[")?;
    put_items(sink, items)?;
    sink.put(b"]")
}
