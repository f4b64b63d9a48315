use crate::setting::Setting;

/// A row: a line `# NAME`, a line `@ SETTING` for each setting that isn't plain, a line `$ WORDS`,
/// and its input up to the next row. The line feed before the next row's `#` is no part of the
/// input.
#[derive(Clone, Copy, Debug)]
pub struct Row<'a> {
    pub name: &'a str,
    pub setting: Setting,
    /// The words, each with a space before it.
    pub words: &'a str,
    pub input: &'a str,
}

impl<'a> Row<'a> {
    /// The row of a text that begins with its name.
    pub fn of(text: &'a str) -> Option<Row<'a>> {
        let (head, body) = text.split_once("\n$")?;
        let (words, input) = body.split_once('\n')?;
        let mut lines = head.split("\n@ ");
        let name = lines.next()?;
        let mut setting = Setting::plain();
        for line in lines {
            setting = setting.with(line)?;
        }
        Some(Row {
            name,
            setting,
            words,
            input,
        })
    }
}
