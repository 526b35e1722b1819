//! The texts of `--help` and `--version`.

/// What `--version` writes.
pub const VERSION: &[u8] = b"acgrep 0.1.0\n";

/// What a call with wrong arguments writes after the reason.
pub const USAGE: &[u8] =
    b"usage: acgrep [OPTIONS] [PATTERN] [FILE..]\nTry 'acgrep --help' for more.\n";

/// What `--help` writes.
pub const HELP: &[u8] = b"usage: acgrep [OPTIONS] [PATTERN] [FILE..]
Prints the lines of each FILE in which PATTERN occurs. A PATTERN of several
lines is several patterns. If no FILE is given, or if FILE is '-', it reads
standard input.

Patterns:
  -e, --regexp PATTERN  search for PATTERN
  -f, --file FILE       search for each line of FILE
  -i, -y, --ignore-case find words in upper and lower case (ASCII letters)
  --no-ignore-case      distinguish upper and lower case: of this option and -i,
                        the last one counts
  -v, --invert-match    select the lines in which no pattern occurs
  -w, --word-regexp     find whole words only: no letter, digit or '_' is
                        directly before or after the match
  -x, --line-regexp     select the lines that are equal to a pattern
  --kind KIND           choose which of several matches -o, --json and --color
                        show: leftmost-longest (or longest, the default),
                        leftmost-first (or first) or standard

Rules, instead of patterns:
  --rules FILE          select the lines in which the rules of FILE mark
                        something: TOML in the format of gitleaks, or 'builtin'
                        for the rules of this program. All operands are files
  --max-line SIZE       select lines longer than SIZE bytes without a search
                        (default: 1048576, 1 MiB); nothing of them is printed,
                        and their number is reported

Output:
  -m, --max-count N     select at most N lines of each file
  -c, --count           print the number of selected lines
  -l, --files-with-matches
                        print the names of files with a selected line
  -L, --files-without-match
                        print the names of files without a selected line
  -q, --quiet, --silent print nothing, and stop at the first selected line
  -o, --only-matching   print each match that is not empty on its own line
  --json                print each match that is not empty as a JSON object
  --format FORMAT       print each match that is not empty on its own line, as
                        FORMAT: {path}, {line}, {start}, {end}, {pattern} and
                        {text} are replaced, {{ and }} are braces
  --counts              print for each pattern its number, how often it was
                        found, and its bytes, once for all files
  -n, --line-number     print the number of each line before it
  -b, --byte-offset     print the byte offset of each line before it
  --offset N            count byte offsets of each file from N instead of 0
  --first-line N        count lines of each file from N instead of 1
  -H, --with-filename   print the name of the file before each line
  -h, --no-filename     do not print the name of the file
  --label LABEL         print LABEL as the name of standard input
  -Z, --null            print a zero byte after the name of a file
  -z, --null-data       end lines at zero bytes instead of newlines
  -T, --initial-tab     print a tab between a line and what is printed before it
  -A, --after-context N print N lines after each selected one too
  -B, --before-context N
                        print N lines before each selected one too
  -C, --context N, -N   print N lines before and after each selected one too
  --group-separator SEPARATOR
                        print SEPARATOR instead of '--' between lines that are
                        not adjacent
  --no-group-separator  print no line between lines that are not adjacent
  --color[=WHEN]        highlight matches: auto, always or never

Folders:
  -r, --recursive       search the files below each FILE that is a folder, in
                        the order of the bytes of their names; the working
                        folder if no FILE is given. Links below a folder are not
                        followed, and devices there are not read
  -R, --dereference-recursive
                        like -r, but follow links and read devices
  -d, --directories ACTION
                        what to do with a FILE that is a folder: read (which
                        fails), recurse (like -r) or skip
  -D, --devices ACTION  what to do with devices: read or skip
  --include GLOB        search only files whose name matches GLOB
  --exclude GLOB        skip files whose name matches GLOB; of these two options
                        the last one that matches decides
  --exclude-from FILE   skip files whose name matches a line of FILE
  --exclude-dir GLOB    skip folders whose name matches GLOB

Others:
  -s, --no-messages     do not report files that cannot be read
  --no-match-ok         exit with status 0 even if no line is selected
  -a, --text            print lines with a zero byte to a terminal too
  -I                    search only the lines before the first with a zero byte
  --binary-files TYPE   what to do with lines with a zero byte: text (like -a),
                        without-match (like -I) or binary (neither)
  -F, -U, -u, --fixed-strings, --binary, --unix-byte-offsets, --line-buffered
                        accepted for compatibility with grep, without effect
  --                    treat all following arguments as operands
  --help                print this help
  -V, --version         print the version

A long name may be shortened to a prefix that no other option has. If an option
of grep starts with the prefix, only the options of grep count. The argument of
a long option follows '=' or is the next argument. The exit status is 0 if a
line is selected, 1 if none is, and 2 if an error occurred. With -q and a
selected line, it is 0 even after an error.
";
