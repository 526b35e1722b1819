//! Which options there are.

/// An option that takes no argument.
#[derive(Clone, Copy)]
pub enum Switch {
    /// `-i`, `-y`
    IgnoreCase,
    /// `--no-ignore-case`
    MatchCase,
    /// `-v`
    Invert,
    /// `-w`
    WholeWords,
    /// `-x`
    WholeLines,
    /// `-c`
    Counts,
    /// `--counts`
    Tallies,
    /// `-n`
    Numbers,
    /// `-o`
    OnlyMatching,
    /// `-b`
    Offsets,
    /// `-l`
    OnlyNames,
    /// `-L`
    OnlyLacking,
    /// `-r`
    Recursive,
    /// `-R`
    Follow,
    /// `-Z`
    NullNames,
    /// `-z`
    NullData,
    /// `-q`
    Quiet,
    /// `--no-group-separator`
    NoSeparator,
    /// `-T`
    InitialTab,
    /// `--json`
    Json,
    /// `-h`
    NoName,
    /// `-H`
    WithName,
    /// `--no-match-ok`
    NoMatchOk,
    /// `-s`
    NoMessages,
    /// `--help`
    Help,
    /// `-V`
    Version,
    /// `-a`
    Text,
    /// `-I`
    TextAlone,
    /// `--binary-files=binary`
    Binary,
    /// `-d read`
    ReadFolders,
    /// `-d skip`
    SkipFolders,
    /// `-D read`
    ReadDevices,
    /// `-D skip`
    SkipDevices,
    /// `-F`, `-U`, `-u` and `--line-buffered`: what is done without them too.
    Same,
}

/// An option that takes an argument.
#[derive(Clone, Copy)]
pub enum Valued {
    /// `-e`
    Regexp,
    /// `-f`
    PatternFile,
    /// `--kind`
    Kind,
    /// `--offset`
    Offset,
    /// `--first-line`
    FirstLine,
    /// `-m`
    MaxCount,
    /// `-A`
    After,
    /// `-B`
    Before,
    /// `-C`
    Around,
    /// `--group-separator`
    Separator,
    /// `--label`
    Label,
    /// `--format`
    Format,
    /// `--include`
    Included,
    /// `--exclude`
    Excluded,
    /// `--exclude-from`
    ExcludedFrom,
    /// `--exclude-dir`
    ExcludedFolder,
    /// `-d`
    Folders,
    /// `-D`
    Devices,
    /// `--binary-files`
    BinaryFiles,
    /// `--rules`
    RuleFile,
    /// `--max-line`
    LineLimit,
}
