//! The texts of `--help` and `--version`.

/// What `--version` writes.
pub const VERSION: &[u8] = b"acredact 0.1.0\n";

/// What `--help` writes.
pub const HELP: &[u8] = b"usage: acredact [OPTIONS] [FILE..]
Copies each FILE to standard output, with every match of the patterns replaced.
If no FILE is given, or if FILE is '-', it reads standard input.

Patterns (at least one, or rules):
  -e, --pattern PATTERN redact PATTERN
  -f, --file FILE       redact each line of FILE
  -t, --table TABLE     redact with replacements from TABLE: each line is a
                        pattern, a TAB and its replacement, with \\t, \\n and
                        \\\\ for a TAB, a line end and a backslash
  --env NAME            redact the value of NAME in the environment: NAME* means
                        all variables whose names start with NAME
  --env-file FILE       redact the value in each line NAME=VALUE of FILE
  --whole FILE          redact the whole content of FILE, without a line end at
                        its end
  -i, --ignore-case     redact patterns in upper and lower case (ASCII letters)
  -w, --word            redact whole words only
  --forms FORMS         redact encoded patterns too: FORMS is all, or some of
                        base64,hex,url,json,xml,shell,lines,json+base64
  --crlf                accept lists with Windows line endings
  --allow-empty         accept empty lists, and unset or empty variables

Rules, for secrets that you cannot list:
  --rules FILE          redact what the rules of FILE mark, line by line: TOML
                        in the format of gitleaks, or 'builtin' for the rules of
                        this program
  --after KEYWORD       redact what follows KEYWORD in a line, up to the next
                        blank, quote, comma, semicolon, '&' or closing bracket
  --max-line SIZE       redact lines longer than SIZE bytes entirely (default:
                        1048576, 1 MiB)

Replacements:
  --with TEXT           write TEXT instead of '[redacted]' for each pattern
                        without a replacement of its own
  --pseudonym KEYFILE   replace equal runs with equal pseudonyms: 12 digits of
                        an HMAC-SHA-256 with the key in KEYFILE; with --forms,
                        of the secret, so its encoded copies get the same one
  --kind KIND           choose what is replaced: cover (the default), every byte
                        of every match; leftmost-longest (or longest),
                        leftmost-first (or first) or standard, one of several
                        overlapping matches, so a part of another can remain
  --strict              refuse replacements that can spell a pattern with the
                        bytes around them, and doubtful lines of lists

Output:
  --output FILE         replace FILE with the output, if everything was redacted
  --in-place            replace each FILE with its redaction
  --keep-mode           give the new file the whole mode of the old one, and not
                        only the group permissions that everyone has
  --overwrite           write the finished output into the old file, so that it
                        keeps owner, permissions, access lists and links; this
                        is not atomic
  --count               report on standard error how often each pattern was
                        replaced
  --summary             report on standard error how many files and bytes were
                        read, and how often each pattern was replaced, as JSON
  --check               write nothing: exit with status 1 if something would be
                        replaced, and 0 if not; with rules and --summary, print
                        FILE:LINE: and the rule for each line with a secret

Others:
  --                    treat all following arguments as files
  --help                print this help
  --version             print the version
";
