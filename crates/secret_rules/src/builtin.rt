//! A list of rules of our own.

/// Rules for the formats that issuers publish, and for what is assigned to names like `password`, as a text for `parse`.
///
/// Many begin with `(?:\b|\\(?:[fnrt]|x\w\w|u\w{4})|%\w\w|\[[\d;]*m)`: no letter or digit stands before, or one that ends an escaped sign as `\n` in
/// JSON, a byte of a URL, or a colour. `assigned-within` is for names in what `assigned-secret` takes for a value: `credentials: password="x"`.
pub const BUILTIN: &str = r##"[[rules]]
id = "github-token"
regex = '''(?:\b|\\(?:[fnrt]|x\w\w|u\w{4})|%\w\w|\[[\d;]*m)((?:ghp|gho|ghu|ghs|ghr)_[0-9A-Za-z]{36,255})\b'''
keywords = ["ghp_", "gho_", "ghu_", "ghs_", "ghr_"]

[[rules]]
id = "github-fine-grained-token"
regex = '''(?:\b|\\(?:[fnrt]|x\w\w|u\w{4})|%\w\w|\[[\d;]*m)(github_pat_[0-9A-Za-z_]{22,255})\b'''
keywords = ["github_pat_"]

[[rules]]
id = "gitlab-token"
regex = '''(?:\b|\\(?:[fnrt]|x\w\w|u\w{4})|%\w\w|\[[\d;]*m)((?:glpat|gldt|glrt|glcbt|glptt|glft|glimt|glagent|gloas|glsoat|glffct)-[0-9A-Za-z_.-]{20,})'''
keywords = ["glpat-", "gldt-", "glrt-", "glcbt-", "glptt-", "glft-", "glimt-", "glagent-", "gloas-", "glsoat-", "glffct-"]

[[rules]]
id = "aws-access-key-id"
regex = '''(?:\b|\\(?:[fnrt]|x\w\w|u\w{4})|%\w\w|\[[\d;]*m)((?:AKIA|ASIA|ABIA|ACCA)[0-9A-Z]{16})\b'''
keywords = ["AKIA", "ASIA", "ABIA", "ACCA"]

[[rules]]
id = "aws-secret-access-key"
regex = '''(?i)aws_?(?:secret_?)?(?:access_?)?key(?:_?id)?["']?\s*[=:]>?\s*["']?([0-9A-Za-z/+]{40})(?:[^0-9A-Za-z/+=]|$)'''
keywords = ["aws"]

[[rules]]
id = "google-api-key"
regex = '''(?:\b|\\(?:[fnrt]|x\w\w|u\w{4})|%\w\w|\[[\d;]*m)(AIza[0-9A-Za-z_-]{35})'''
keywords = ["AIza"]

[[rules]]
id = "google-oauth"
regex = '''(?:\b|\\(?:[fnrt]|x\w\w|u\w{4})|%\w\w|\[[\d;]*m)(ya29\.[0-9A-Za-z_-]{20,}|GOCSPX-[0-9A-Za-z_-]{28}|1//0[0-9A-Za-z_-]{30,})'''
keywords = ["ya29.", "GOCSPX-", "1//0"]

[[rules]]
id = "azure-storage-key"
regex = '''(?i)(?:AccountKey|SharedAccessKey)\s*=\s*([0-9A-Za-z+/]{40,}={0,2})'''
keywords = ["AccountKey", "SharedAccessKey"]

[[rules]]
id = "azure-client-secret"
regex = '''(?:^|[^0-9A-Za-z_~.-]|\\(?:[fnrt]|x\w\w|u\w{4})|%\w\w|\[[\d;]*m)([0-9A-Za-z_~.]{3}\dQ~[0-9A-Za-z_~.-]{31,34})(?:[^0-9A-Za-z_~.-]|$)'''
keywords = ["Q~"]

[[rules]]
id = "azure-sas"
regex = '''[?&]sig=([0-9A-Za-z%+/=]{40,})'''
keywords = ["sig="]

[[rules]]
id = "slack-token"
regex = '''(?:\b|\\(?:[fnrt]|x\w\w|u\w{4})|%\w\w|\[[\d;]*m)(xox[abeoprs](?:\.xox[bp])?-[0-9A-Za-z-]{10,})'''
keywords = ["xox"]

[[rules]]
id = "slack-app-token"
regex = '''(?:\b|\\(?:[fnrt]|x\w\w|u\w{4})|%\w\w|\[[\d;]*m)(xapp-\d-[0-9A-Z]+-\d+-[0-9a-f]+)'''
keywords = ["xapp-"]

[[rules]]
id = "slack-webhook"
regex = '''hooks\.slack\.com/(?:services|workflows|triggers)/([0-9A-Za-z+/]{20,})'''
keywords = ["hooks.slack.com"]

[[rules]]
id = "stripe-key"
regex = '''(?:\b|\\(?:[fnrt]|x\w\w|u\w{4})|%\w\w|\[[\d;]*m)((?:sk|rk|pk)_(?:live|test)_[0-9A-Za-z]{10,})\b'''
keywords = ["sk_live_", "sk_test_", "rk_live_", "rk_test_", "pk_live_", "pk_test_"]

[[rules]]
id = "stripe-webhook-secret"
regex = '''(?:\b|\\(?:[fnrt]|x\w\w|u\w{4})|%\w\w|\[[\d;]*m)(whsec_[0-9A-Za-z+/=]{24,})'''
keywords = ["whsec_"]

[[rules]]
id = "twilio-key"
regex = '''(?:\b|\\(?:[fnrt]|x\w\w|u\w{4})|%\w\w|\[[\d;]*m)((?:SK|AC)[0-9a-f]{32})\b'''
keywords = ["SK0", "SK1", "SK2", "SK3", "SK4", "SK5", "SK6", "SK7", "SK8", "SK9", "SKa", "SKb", "SKc", "SKd", "SKe", "SKf", "AC0", "AC1", "AC2", "AC3", "AC4", "AC5", "AC6", "AC7", "AC8", "AC9", "ACa", "ACb", "ACc", "ACd", "ACe", "ACf"]

[[rules]]
id = "sendgrid-key"
regex = '''(?:\b|\\(?:[fnrt]|x\w\w|u\w{4})|%\w\w|\[[\d;]*m)(SG\.[0-9A-Za-z_-]{22}\.[0-9A-Za-z_-]{43})'''
keywords = ["SG."]

[[rules]]
id = "npm-token"
regex = '''(?:\b|\\(?:[fnrt]|x\w\w|u\w{4})|%\w\w|\[[\d;]*m)(npm_[0-9A-Za-z]{36})\b'''
keywords = ["npm_"]

[[rules]]
id = "npmrc-auth"
regex = '''(?i)_(?:authToken|auth|password)\s*=\s*["']?([^\s"'$]{8,})'''
keywords = ["_authToken", "_auth", "_password"]

[[rules]]
id = "pypi-token"
regex = '''(?:\b|\\(?:[fnrt]|x\w\w|u\w{4})|%\w\w|\[[\d;]*m)(pypi-AgE[0-9A-Za-z_-]{50,})'''
keywords = ["pypi-AgE"]

[[rules]]
id = "docker-token"
regex = '''(?:\b|\\(?:[fnrt]|x\w\w|u\w{4})|%\w\w|\[[\d;]*m)(dckr_(?:pat|oat)_[0-9A-Za-z_-]{27,})'''
keywords = ["dckr_pat_", "dckr_oat_"]

[[rules]]
id = "docker-config-auth"
regex = '''"auth"\s*:\s*"([0-9A-Za-z+/=]{8,})"'''
keywords = ['"auth"']

[[rules]]
id = "openai-key"
regex = '''(?:\b|\\(?:[fnrt]|x\w\w|u\w{4})|%\w\w|\[[\d;]*m)(sk-(?:(?:proj|svcacct|admin|None)-)?[0-9A-Za-z_-]{20,})'''
keywords = ["sk-"]

[[rules]]
id = "anthropic-key"
regex = '''(?:\b|\\(?:[fnrt]|x\w\w|u\w{4})|%\w\w|\[[\d;]*m)(sk-ant-[0-9A-Za-z_-]{20,})'''
keywords = ["sk-ant-"]

[[rules]]
id = "hugging-face-token"
regex = '''(?:\b|\\(?:[fnrt]|x\w\w|u\w{4})|%\w\w|\[[\d;]*m)(hf_[0-9A-Za-z]{30,}|api_org_[0-9A-Za-z]{30,})\b'''
keywords = ["hf_", "api_org_"]

[[rules]]
id = "json-web-token"
regex = '''(?:\b|\\(?:[fnrt]|x\w\w|u\w{4})|%\w\w|\[[\d;]*m)(eyJ[0-9A-Za-z_-]{8,}\.eyJ[0-9A-Za-z_-]{4,}\.[0-9A-Za-z_-]*)'''
keywords = ["eyJ"]

[[rules]]
id = "private-key"
regex = '''-----BEGIN [0-9A-Z ]{0,40}PRIVATE KEY(?: BLOCK)?-----'''
keywords = ["PRIVATE KEY"]
until = "-----END"

[[rules]]
id = "putty-private-key"
regex = '''PuTTY-User-Key-File-\d'''
keywords = ["PuTTY-User-Key-File-"]
until = "Private-MAC:"

[[rules]]
id = "password-in-url"
regex = '''://[^\s/?#:@"']*:([^\s/?#"']+)@'''
keywords = ["://"]

[[rules]]
id = "authorization-header"
regex = '''(?i)(?:\b|\\(?:[fnrt]|x\w\w|u\w{4})|%\w\w|\[[\d;]*m)(?:http_)?(?:proxy[_-])?authorization\\*["']?\]?\s*[:=]+>?\s*(?:(?:[\[{(]\s*(?:\\*["']?[0-9a-z_.$@-]+\\*["']?\s*[:=]+>?\s*)?)*(?:[bfrunl$@]|[bf]r|r[bf])?\\*["']|(?:[\[{(]\s*\\*["'][0-9a-z_.$@-]+\\*["']\s*[:=]+>?\s*|[\[{(]\s+)*\\*)(?:(?:basic|bearer|negotiate|apikey)\s+([\[{(=:>]*[^\s"',;\\\[{()\]}=:>][^"'\r\\]*)|digest\s+([\[{(=:>]*[^\s"',;\\\[{()\]}=:>](?:="[^"]*"|=\\+"[^"\\]*\\+"|[^"'\r\\])*)|token\s+(token(?:="[^"]*"|=\\+"[^"\\]*\\+"|[^"'\r\\])*)|(?:(?:token|aws4-hmac-sha256)\s+)?([\[{(=:>]*[^\s"',;\\\[{()\]}=:>](?:="[^"]*"|[^"'\r\\])*))'''
keywords = ["authorization"]

[[rules]]
id = "bearer-token"
regex = '''(?i)(?:\b|\\(?:[fnrt]|x\w\w|u\w{4})|%\w\w|\[[\d;]*m)bearer\s+([0-9a-z._~+/-]{16,}=*)'''
keywords = ["bearer"]

[[rules]]
id = "assigned-secret"
regex = '''(?i)^(?:export\s+|declare -x )?(?-i:[0-9A-Z_]*(?:PASSWD|PASSWORD|PASSPHRASE|PWD|SECRET|TOKEN|API_?KEY|ACCESS_?KEY|PRIVATE_?KEY|CREDENTIAL|AUTH_?KEY)[0-9A-Z_]*)=([^\s"'&,;)\]}\\\[{(=:>](?:\\*[^\s"'&,;)\]}\\])*[&,;)\]}"']\S*[^\s"'&,;)\]}\\])|(?:passwd|password|passphrase|pwd|secret|token|api[_-]?key|access[_-]?key|private[_-]?key|credentials?|auth[_-]?key)[0-9a-z_.-]{0,30}\\*["']?(?:\]|%5d)?(?:\x1b\[[\d;]*m)?\s*[:=]+>?\s*(?:[\[(]\s*"((?:[^"\\]|\\.)+(?:"\s*,\s*"(?:[^"\\]|\\.)+)+)"|\{\s*(?:"((?:[^"\\]|\\.)+)"|'((?:[^'\\]|\\.)+)')\s*[,}]|(?:(?:some|just|optional)?[\[(]\s*(?:\\*["']?[0-9a-z_.$@-]+\\*["']?\s*[:=]+>?\s*)?|\{\s*\\*["']?[0-9a-z_.$@-]+\\*["']?\s*[:=]+>?\s*)*(?:[bfrunl$@]|[bf]r|r[bf])?(?:"((?:[^"\\]|\\.)+)|'((?:[^'\\]|\\.)+)|\\"((?:[^"\\]|\\\\\\"|\\[^"])+)|\\{3}"((?:[^"\\]|\\{7}"|\\+[^"\\])+)|\\{2,}"((?:[^"\\]|\\+[^"\\])+)|\\+'((?:[^'\\]|\\+[^'\\])+))|(?:[\[{(]\s*(?:\\*["'][0-9a-z_.$@-]+\\*["']\s*[:=]+>?\s*|[0-9a-z_.$@-]+\s*[:=]+>?\s+))*([\[{(\\=:>]*[^\s"'&,;)\]}\\\[{(=:>](?:\\*[^\s"'&,;)\]}\\])*(?:\\+$)?))'''
keywords = ["passwd", "password", "passphrase", "pwd", "secret", "token", "api_key", "apikey", "api-key", "access_key", "accesskey", "access-key", "private_key", "privatekey", "private-key", "credential", "auth_key", "authkey", "auth-key"]

[[rules]]
id = "assigned-within"
regex = '''(?i)[:=]+>?\s*\\*["']?(?:[^\s"'&,;)\]}]{0,80}?(?:passwd|password|passphrase|pwd|secret|token|api[_-]?key|access[_-]?key|private[_-]?key|credentials?|auth[_-]?key)[0-9a-z_.-]{0,30}\\*["']?(?:\]|%5d)?(?:\x1b\[[\d;]*m)?\s*[:=]+>?\s*)+(?:[\[(]\s*"((?:[^"\\]|\\.)+(?:"\s*,\s*"(?:[^"\\]|\\.)+)+)"|\{\s*(?:"((?:[^"\\]|\\.)+)"|'((?:[^'\\]|\\.)+)')\s*[,}]|(?:(?:some|just|optional)?[\[(]\s*(?:\\*["']?[0-9a-z_.$@-]+\\*["']?\s*[:=]+>?\s*)?|\{\s*\\*["']?[0-9a-z_.$@-]+\\*["']?\s*[:=]+>?\s*)*(?:[bfrunl$@]|[bf]r|r[bf])?(?:"((?:[^"\\]|\\.)+)|'((?:[^'\\]|\\.)+)|\\"((?:[^"\\]|\\\\\\"|\\[^"])+)|\\{3}"((?:[^"\\]|\\{7}"|\\+[^"\\])+)|\\{2,}"((?:[^"\\]|\\+[^"\\])+)|\\+'((?:[^'\\]|\\+[^'\\])+))|(?:[\[{(]\s*(?:\\*["'][0-9a-z_.$@-]+\\*["']\s*[:=]+>?\s*|[0-9a-z_.$@-]+\s*[:=]+>?\s+))*([\[{(\\=:>]*[^\s"'&,;)\]}\\\[{(=:>](?:\\*[^\s"'&,;)\]}\\])*(?:\\+$)?))'''
keywords = ["passwd", "password", "passphrase", "pwd", "secret", "token", "api_key", "apikey", "api-key", "access_key", "accesskey", "access-key", "private_key", "privatekey", "private-key", "credential", "auth_key", "authkey", "auth-key"]

[[rules]]
id = "pass-variable"
regex = '''[0-9A-Z]_PASS=(?:"((?:[^"\\]|\\.)+)|'([^']+)|([^\s"'&,;)\]}\\](?:\\*[^\s"'&,;)\]}\\])*))'''
keywords = ["_PASS="]

[[rules]]
id = "value-of-name"
regex = '''(?i)(?:name|key)\\*["']?\s*[:=]\s*\\*["'][^\s"'\\]{0,80}(?:passwd|password|passphrase|pwd|secret|token|api[_-]?key|access[_-]?key|private[_-]?key|credentials?|auth[_-]?key)[^\s"'\\]{0,80}\\*["']\s*,?\s*\\*["']?value\\*["']?\s*[:=]\s*(?:"((?:[^"\\]|\\.)+)|'((?:[^'\\]|\\.)+)|\\+"((?:[^"\\]|\\+[^"\\])+))'''
keywords = ["passwd", "password", "passphrase", "pwd", "secret", "token", "api_key", "apikey", "api-key", "access_key", "accesskey", "access-key", "private_key", "privatekey", "private-key", "credential", "auth_key", "authkey", "auth-key"]

[[rules]]
id = "secret-in-xml"
regex = '''(?i)<[0-9a-z_.:-]{0,80}(?:passwd|password|passphrase|pwd|secret|token|api[_-]?key|access[_-]?key|private[_-]?key|credentials?|auth[_-]?key)[0-9a-z_.-]{0,30}>([^<]+)</'''
keywords = ["passwd", "password", "passphrase", "pwd", "secret", "token", "api_key", "apikey", "api-key", "access_key", "accesskey", "access-key", "private_key", "privatekey", "private-key", "credential", "auth_key", "authkey", "auth-key"]

[[rules]]
id = "session-cookie"
regex = '''(?i)(?:\b|\\(?:[fnrt]|x\w\w|u\w{4})|%\w\w|\[[\d;]*m)(?:[0-9a-z_.-]*sess(?:ion)?[0-9a-z_.-]*|connect\.sid|sid|csrf[0-9a-z_-]*|xsrf[0-9a-z_-]*|remember[0-9a-z_-]*)=\\*["']?([^\s;,"'\\](?:\\*[^\s;,"'\\])*)'''
keywords = ["sess", "sid", "csrf", "xsrf", "remember"]
"##;
