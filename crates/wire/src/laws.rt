// What holds of every message, said by functions whose contracts are the laws.
ghost use Rattle.wire.specs.Laws.{ReadsBack, WritesBack, OneForm, Sized, FitsOutbox, StudioSized};

use content::kind::Content;

// A message has one form in bytes.
pub fn one_form<const L: usize, const S: usize, C: Content<L>>()
    ensures forth { ReadsBack C.Content.kind S }
    ensures back { WritesBack C.Content.kind S }
    ensures apart { OneForm C.Content.kind S }
{}

// How long a message is, and that an outbox holds it.
pub fn lengths<const L: usize, const S: usize, C: Content<L>>()
    ensures sized { Sized C.Content.kind S }
    ensures fits { FitsOutbox C.Content.kind S }
{}

// The lengths for three seats, contents of 17 bytes and seals of 8.
pub fn studio_lengths<C: Content<17>>()
    ensures { StudioSized C.Content.kind }
{}
