ghost use Rattle.picture_rule.specs.Editing.{ReadsBack};

/// An edited text reads back as the value that it shows: the value that was put in, cut at the picture's last place and of high
/// digits, and without its sign where the picture shows none. It states a law, and does nothing.
pub fn edited_text_reads_back()
    ensures { ReadsBack }
{}
