//! Rows of Python's own encoders, of base64 of the secret with each byte that can stand beside it.

use secret_forms::{
    Form, FormError, base64_forms, forms, hex_forms, json_forms, lines_forms, nested_forms,
    shell_forms, url_forms, xml_forms,
};
use std::alloc::Global;

/// The patterns of a form, each with a space behind it.
fn shown(alloc: Global, forms: Result<Vec<Vec<u8>>, FormError>) -> Result<Vec<u8>, FormError> {
    let mut text = Vec::new(alloc);
    for pattern in &forms? {
        text.extend_from_slice(pattern)?;
        text.extend_from_slice(b" ")?;
    }
    Ok(text)
}

#[test]
fn hex_in_both_cases(rt: HostRuntime) {
    let text = shown(rt.alloc(), hex_forms(rt.alloc(), b"key=\xff")).expect(&rt, "memory");
    assert_eq!(rt; text.as_slice(), b"6b65793dff 6B65793DFF ".as_slice());
}

#[test]
fn hex_of_digits_alone(rt: HostRuntime) {
    let text = shown(rt.alloc(), hex_forms(rt.alloc(), b"1234")).expect(&rt, "memory");
    assert_eq!(rt; text.as_slice(), b"31323334 ".as_slice());
}

#[test]
fn base64_where_the_alphabets_agree(rt: HostRuntime) {
    let text = shown(rt.alloc(), base64_forms(rt.alloc(), b"key=")).expect(&rt, "memory");
    let row: &[u8] = b"\
        a2V5P a2V5PQ a2V5PR a2V5PS a2V5PT a2V5PU a2V5PV a2V5PW a2V5PX a2V5PY a2V5PZ a2V5Pa a2V5Pb a2V5Pc \
        a2V5Pd a2V5Pe a2V5Pf tleT GtleT WtleT mtleT 2tleT tleT0 tleT1 tleT2 tleT3 rZXk9 BrZXk9 FrZXk9 \
        JrZXk9 NrZXk9 RrZXk9 VrZXk9 ZrZXk9 drZXk9 hrZXk9 lrZXk9 prZXk9 trZXk9 xrZXk9 1rZXk9 5rZXk9 9rZXk9 ";
    assert_eq!(rt; text.as_slice(), row);
}

#[test]
fn base64_where_the_alphabets_differ(rt: HostRuntime) {
    let text = shown(rt.alloc(), base64_forms(rt.alloc(), b"a?>\xff")).expect(&rt, "memory");
    let row: &[u8] = b"\
        YT8+/ YT8+/w YT8+/x YT8+/y YT8+/z YT8+/0 YT8+/1 YT8+/2 YT8+/3 YT8+/4 YT8+/5 YT8+/6 YT8+/7 YT8+/8 \
        YT8+/9 YT8+/+ YT8+// E/Pv GE/Pv WE/Pv mE/Pv 2E/Pv E/Pv8 E/Pv9 E/Pv+ E/Pv/ hPz7/ BhPz7/ FhPz7/ \
        JhPz7/ NhPz7/ RhPz7/ VhPz7/ ZhPz7/ dhPz7/ hhPz7/ lhPz7/ phPz7/ thPz7/ xhPz7/ 1hPz7/ 5hPz7/ 9hPz7/ \
        YT8-_ YT8-_w YT8-_x YT8-_y YT8-_z YT8-_0 YT8-_1 YT8-_2 YT8-_3 YT8-_4 YT8-_5 YT8-_6 YT8-_7 YT8-_8 \
        YT8-_9 YT8-_- YT8-__ E_Pv GE_Pv WE_Pv mE_Pv 2E_Pv E_Pv8 E_Pv9 E_Pv- E_Pv_ hPz7_ BhPz7_ FhPz7_ \
        JhPz7_ NhPz7_ RhPz7_ VhPz7_ ZhPz7_ dhPz7_ hhPz7_ lhPz7_ phPz7_ thPz7_ xhPz7_ 1hPz7_ 5hPz7_ 9hPz7_ ";
    assert_eq!(rt; text.as_slice(), row);
}

#[test]
fn url_by_each_encoder(rt: HostRuntime) {
    let text = shown(rt.alloc(), url_forms(rt.alloc(), b"a b/'?\xff")).expect(&rt, "memory");
    let row: &[u8] = b"\
        a%20b%2F%27%3F%FF a%20b%2f%27%3f%ff a+b%2F%27%3F%FF a+b%2f%27%3f%ff a%20b/%27%3F%FF a%20b/%27%3f%ff \
        a+b/%27%3F%FF a+b/%27%3f%ff a%20b%2F'%3F%FF a%20b%2f'%3f%ff a+b%2F'%3F%FF a+b%2f'%3f%ff a%20b/'?%FF \
        a%20b/'?%ff a+b/'?%FF a+b/'?%ff a%20b/%27?%FF a%20b/%27?%ff a+b/%27?%FF a+b/%27?%ff a%20b/'%3F%FF \
        a%20b/'%3f%ff a+b/'%3F%FF a+b/'%3f%ff %61%20%62%2F%27%3F%FF %61%20%62%2f%27%3f%ff a%20b/'%3F\xff \
        a%20b/'%3f\xff a%20b/'?\xff a%20b%2F'%3F\xff a%20b%2f'%3f\xff ";
    assert_eq!(rt; text.as_slice(), row);
}

#[test]
fn url_by_each_set_of_marks(rt: HostRuntime) {
    let text = shown(rt.alloc(), url_forms(rt.alloc(), b"~(*)^")).expect(&rt, "memory");
    let row: &[u8] = b"\
        ~%28%2A%29%5E ~%28%2a%29%5e ~(*)%5E ~(*)%5e %7E%28*%29%5E %7e%28*%29%5e %7E%28%2A%29%5E %7e%28%2a%29%5e \
        %7E(*)%5E %7e(*)%5e ~(*)^ ";
    assert_eq!(rt; text.as_slice(), row);
}

#[test]
fn url_of_a_password_and_a_segment(rt: HostRuntime) {
    let text = shown(rt.alloc(), url_forms(rt.alloc(), b"!&:/@")).expect(&rt, "memory");
    let row: &[u8] = b"\
        %21%26%3A%2F%40 %21%26%3a%2f%40 %21%26%3A/%40 %21%26%3a/%40 !%26%3A%2F%40 !%26%3a%2f%40 !&:/@ \
        !&%3A%2F%40 !&%3a%2f%40 %21&%3A%2F%40 %21&%3a%2f%40 %21&:%2F@ %21&:%2f@ %21&:/@ %21%26%3A/@ %21%26%3a/@ \
        !&:%2F%40 !&:%2f%40 ";
    assert_eq!(rt; text.as_slice(), row);
}

#[test]
fn url_of_bytes_that_are_kept(rt: HostRuntime) {
    let text = shown(rt.alloc(), url_forms(rt.alloc(), b"key-1.2")).expect(&rt, "memory");
    let row: &[u8] = b"\
        key-1.2 key%2D1%2E2 key%2d1%2e2 %6B%65%79%2D%31%2E%32 %6b%65%79%2d%31%2e%32 ";
    assert_eq!(rt; text.as_slice(), row);
}

#[test]
fn url_by_characters(rt: HostRuntime) {
    let secret = b"p\xc3\xa4 \xc5\xbc\xf0\x9f\x98\x80";
    let text = shown(rt.alloc(), url_forms(rt.alloc(), secret)).expect(&rt, "memory");
    let row: &[u8] = b"\
        p%C3%A4%20%C5%BC%F0%9F%98%80 p%c3%a4%20%c5%bc%f0%9f%98%80 p%C3%A4+%C5%BC%F0%9F%98%80 \
        p%c3%a4+%c5%bc%f0%9f%98%80 %70%C3%A4%20%C5%BC%F0%9F%98%80 %70%c3%a4%20%c5%bc%f0%9f%98%80 \
        p\xc3\xa4%20\xc5\xbc\xf0\x9f\x98\x80 p%E4%20%u017C%uD83D%uDE00 ";
    assert_eq!(rt; text.as_slice(), row);
}

#[test]
fn json_by_each_encoder(rt: HostRuntime) {
    let text = shown(rt.alloc(), json_forms(rt.alloc(), b"\xc3\xa9/\"\\<\x01")).expect(
        &rt, "memory",
    );
    let row: &[u8] = b"\
        \xc3\xa9/\\\"\\\\<\\u0001 \xc3\xa9\\/\\\"\\\\<\\u0001 \xc3\xa9/\\\"\\\\\\u003c\\u0001 \
        \xc3\xa9/\\\"\\\\\\u003C\\u0001 \xc3\xa9\\/\\\"\\\\\\u003c\\u0001 \xc3\xa9\\/\\\"\\\\\\u003C\\u0001 \
        \xc3\xa9/\\u0022\\\\\\u003c\\u0001 \xc3\xa9/\\u0022\\\\\\u003C\\u0001 \
        \xc3\xa9\\/\\u0022\\\\\\u003c\\u0001 \xc3\xa9\\/\\u0022\\\\\\u003C\\u0001 \\u00e9/\\\"\\\\<\\u0001 \
        \\u00E9/\\\"\\\\<\\u0001 \\u00e9\\/\\\"\\\\<\\u0001 \\u00E9\\/\\\"\\\\<\\u0001 \
        \\u00e9/\\\"\\\\\\u003c\\u0001 \\u00E9/\\\"\\\\\\u003C\\u0001 \\u00e9\\/\\\"\\\\\\u003c\\u0001 \
        \\u00E9\\/\\\"\\\\\\u003C\\u0001 \\u00e9/\\u0022\\\\\\u003c\\u0001 \\u00E9/\\u0022\\\\\\u003C\\u0001 \
        \\u00e9\\/\\u0022\\\\\\u003c\\u0001 \\u00E9\\/\\u0022\\\\\\u003C\\u0001 \\u00e9/\\\"\\\\\\u003C\\u0001 \
        \\u00e9\\/\\\"\\\\\\u003C\\u0001 \\u00e9/\\u0022\\\\\\u003C\\u0001 \\u00e9\\/\\u0022\\\\\\u003C\\u0001 ";
    assert_eq!(rt; text.as_slice(), row);
}

#[test]
fn json_by_each_set_of_marks(rt: HostRuntime) {
    let text = shown(rt.alloc(), json_forms(rt.alloc(), b"'=+`")).expect(&rt, "memory");
    let row: &[u8] = b"\
        '=+` \\u0027\\u003d+` \\u0027\\u003D+` \\u0027=\\u002b\\u0060 \\u0027=\\u002B\\u0060 \\u0027=+` ";
    assert_eq!(rt; text.as_slice(), row);
}

#[test]
fn json_of_a_surrogate_pair(rt: HostRuntime) {
    let text = shown(
        rt.alloc(),
        json_forms(rt.alloc(), b"key\xf0\x9f\x98\x80\x7f"),
    )
    .expect(&rt, "memory");
    let row: &[u8] = b"\
        key\xf0\x9f\x98\x80\x7f key\xf0\x9f\x98\x80\\u007f key\xf0\x9f\x98\x80\\u007F key\\ud83d\\ude00\\u007f \
        key\\uD83D\\uDE00\\u007F key\\ud83d\\ude00\x7f ";
    assert_eq!(rt; text.as_slice(), row);
}

#[test]
fn json_with_letters(rt: HostRuntime) {
    let text = shown(rt.alloc(), json_forms(rt.alloc(), b"k\x08\x09\n\x0c\r")).expect(
        &rt, "memory",
    );
    let row: &[u8] = b"\
        k\\b\\t\\n\\f\\r k\\u0008\\t\\n\\u000c\\r ";
    assert_eq!(rt; text.as_slice(), row);
}

#[test]
fn xml_by_each_encoder(rt: HostRuntime) {
    let text = shown(rt.alloc(), xml_forms(rt.alloc(), b"<\"&'>")).expect(&rt, "memory");
    let row: &[u8] =
        b"&lt;\"&amp;'&gt; &lt;&quot;&amp;&#39;&gt; &lt;&quot;&amp;&apos;&gt; &lt;&quot;&amp;'&gt; &lt;&quot;&amp;'> &lt;&quot;&amp;&#039;&gt; &lt;&#34;&amp;&#39;&gt; &lt;&quot;&amp;&#x27;&gt; \
          &#60;&#34;&#38;&#39;&#62; &#x3C;&#x22;&#x26;&#x27;&#x3E; &#x3c;&#x22;&#x26;&#x27;&#x3e; ";
    assert_eq!(rt; text.as_slice(), row);
}

#[test]
fn shell_by_each_way(rt: HostRuntime) {
    let text = shown(rt.alloc(), shell_forms(rt.alloc(), b"a'b\"$ \\")).expect(&rt, "memory");
    let row: &[u8] = b"\
        a'\\''b\"$ \\ a'\"'\"'b\"$ \\ a'b\\\"\\$ \\\\ a\\'b\\\"\\$\\ \\\\ \\a\\'\\b\\\"\\$\\ \\\\ a'b\"\\$ \\\\ \
        a\\'b\"$ \\\\ a''b\"$ \\ a'b\"\"$ \\ a'b\"$ \\\\ a'b\\\"$ \\\\ a'b\"$\\ \\\\ a'b\\x22$ \\x5C \
        61 27 62 22 24 20 5c 61:27:62:22:24:20:5c 61-27-62-22-24-20-5c 61 27 62 22 24 20 5C 61:27:62:22:24:20:5C \
        61-27-62-22-24-20-5C 97 39 98 34 36 32 92 97,39,98,34,36,32,92 97, 39, 98, 34, 36, 32, 92 ";
    assert_eq!(rt; text.as_slice(), row);
}

#[test]
fn shell_as_bash_writes(rt: HostRuntime) {
    let text = shown(
        rt.alloc(),
        shell_forms(rt.alloc(), b"a,~\x01\x07\n\x1b\x7f\xff"),
    )
    .expect(&rt, "memory");
    let row: &[u8] = b"\
        a,~\x01\x07\n\x1b\x7f\xff a,\\~\\\x01\\\x07\\\n\\\x1b\\\x7f\xff a\\,~\x01\x07\n\x1b\x7f\xff \
        a\\,\\~\x01\x07\n\x1b\x7f\xff \\a\\,\\~\x01\\\x07\\\n\\\x1b\x7f\\\xff a,~\\001\\a\\n\\E\\177\xff \
        a,~\\001\\a\\n\\E\\177\\377 a,\\~\\\x01\\\x07'\n'\\\x1b\\\x7f\\\xff \
        a,~$'\\001'$'\\a'$'\\n'$'\\033'$'\\177'\xff a,~$'\\001'$'\\a'$'\\n'$'\\033'$'\\177'$'\\377' \
        a,\\~\\ca\\cg\\n\\e\\x7f\xff a,~\\x01\\x07\\n\\x1b\\x7f\xff a,~\\x01\\x07\\n\\x1b\\x7f\\xff \
        a,~\\x01\\a\\n\\x1b\\x7f\xff a,~\\x01\\a\\n\\x1b\\x7f\\xff a,~\\001\\a\\n\\033\\177\xff \
        a,~\\001\\a\\n\\033\\177\\377 a,~\\x01\\x07\\x0A\\x1B\\x7F\xff a,~\\x01\\x07\\x0A\\x1B\\x7F\\xFF \
        a,~'$'\\001\\a\\n\\033\\177''\xff a,~'$'\\001\\a\\n\\033\\177\\377 61 2c 7e 01 07 0a 1b 7f ff \
        61:2c:7e:01:07:0a:1b:7f:ff 61-2c-7e-01-07-0a-1b-7f-ff 61 2C 7E 01 07 0A 1B 7F FF \
        61:2C:7E:01:07:0A:1B:7F:FF 61-2C-7E-01-07-0A-1B-7F-FF 97 44 126 1 7 10 27 127 255 \
        97,44,126,1,7,10,27,127,255 97, 44, 126, 1, 7, 10, 27, 127, 255 ";
    assert_eq!(rt; text.as_slice(), row);
}

#[test]
fn shell_as_git_writes(rt: HostRuntime) {
    let text = shown(rt.alloc(), shell_forms(rt.alloc(), b"it's!")).expect(&rt, "memory");
    let row: &[u8] = b"\
        it'\\''s! it'\"'\"'s! it's! it\\'s\\! \\i\\t\\'\\s\\! it\\'s! it'\\''s'\\!' it''s! 69 74 27 73 21 \
        69:74:27:73:21 69-74-27-73-21 105 116 39 115 33 105,116,39,115,33 105, 116, 39, 115, 33 ";
    assert_eq!(rt; text.as_slice(), row);
}

#[test]
fn shell_as_bash_traces(rt: HostRuntime) {
    let text = shown(rt.alloc(), shell_forms(rt.alloc(), b"p\xc3\xa4.[]")).expect(&rt, "memory");
    let row: &[u8] = b"\
        p\xc3\xa4.[] p\xc3\xa4.\\[\\] \\p\\\xc3\\\xa4\\.\\[\\] \\p\\\xc3\xa4\\.\\[\\] p\xc3\xa4\\.\\[] \
        p\\303\\244.[] p\\\xc3\xa4.\\[\\] p$'\\303'$'\\244'.\\[\\] p\\xc3\\xa4.[] p\\xC3\\xA4.[] \
        p'$'\\303\\244''.[] 70 c3 a4 2e 5b 5d 70:c3:a4:2e:5b:5d 70-c3-a4-2e-5b-5d 70 C3 A4 2E 5B 5D \
        70:C3:A4:2E:5B:5D 70-C3-A4-2E-5B-5D 112 195 164 46 91 93 112,195,164,46,91,93 112, 195, 164, 46, 91, 93 ";
    assert_eq!(rt; text.as_slice(), row);
}

#[test]
fn shell_by_the_byte_before(rt: HostRuntime) {
    let text = shown(rt.alloc(), shell_forms(rt.alloc(), b"~a~=~\t'\xffb")).expect(&rt, "memory");
    let row: &[u8] = b"\
        ~a~=~\t'\\''\xffb ~a~=~\t'\"'\"'\xffb ~a~=~\t'\xffb \\~a\\~=\\~\\\t\\'\xffb ~a~=~\t\\'\xffb \
        \\~a\\~=\\~\t\\'\xffb \\~\\a\\~\\=\\~\\\t\\'\\\xff\\b ~a~=~\\t\\'\xffb ~a~=~\\t\\'\\377b ~a~=~\t''\xffb \
        \\~a\\~\\=\\~\\\t\\'\\\xffb ~a~=~$'\\t'\\'\xffb ~a~=~$'\\t'\\'$'\\377'b \\~a\\~\\=\\~\\t\\'\xffb \
        ~a~=~\\t'\xffb ~a~=~\\t'\\xffb ~a~=~\\t\\'\\xffb ~a~=~\\t'\\377b ~a~=~\\x09'\xffb ~a~=~\\x09'\\xFFb \
        ~a~=\\~\t\\'\xffb ~a~=~'$'\\t'\\''\xffb ~a~=~'$'\\t'\\'''$'\\377''b 7e 61 7e 3d 7e 09 27 ff 62 \
        7e:61:7e:3d:7e:09:27:ff:62 7e-61-7e-3d-7e-09-27-ff-62 7E 61 7E 3D 7E 09 27 FF 62 \
        7E:61:7E:3D:7E:09:27:FF:62 7E-61-7E-3D-7E-09-27-FF-62 126 97 126 61 126 9 39 255 98 \
        126,97,126,61,126,9,39,255,98 126, 97, 126, 61, 126, 9, 39, 255, 98 ";
    assert_eq!(rt; text.as_slice(), row);
}

#[test]
fn json_as_php_go_and_ruby_write(rt: HostRuntime) {
    let text = shown(
        rt.alloc(),
        json_forms(rt.alloc(), b"\xc3\xa9<>\x1f\x7f\x08\x0c\xe2\x80\xa8/'\""),
    )
    .expect(&rt, "memory");
    let row: &[u8] = b"\
        \xc3\xa9<>\\u001f\x7f\\b\\f\xe2\x80\xa8/'\\\" \xc3\xa9<>\\u001F\x7f\\b\\f\xe2\x80\xa8/'\\\" \
        \xc3\xa9<>\\u001f\x7f\\b\\f\xe2\x80\xa8\\/'\\\" \xc3\xa9<>\\u001F\x7f\\b\\f\xe2\x80\xa8\\/'\\\" \
        \xc3\xa9\\u003c\\u003e\\u001f\x7f\\b\\f\xe2\x80\xa8/'\\\" \
        \xc3\xa9\\u003C\\u003E\\u001F\x7f\\b\\f\xe2\x80\xa8/'\\\" \
        \xc3\xa9\\u003c\\u003e\\u001f\x7f\\b\\f\xe2\x80\xa8\\/'\\\" \
        \xc3\xa9\\u003C\\u003E\\u001F\x7f\\b\\f\xe2\x80\xa8\\/'\\\" \
        \xc3\xa9\\u003c\\u003e\\u001f\x7f\\b\\f\xe2\x80\xa8/\\u0027\\\" \
        \xc3\xa9\\u003C\\u003E\\u001F\x7f\\b\\f\xe2\x80\xa8/\\u0027\\\" \
        \xc3\xa9\\u003c\\u003e\\u001f\\u007f\\b\\f\xe2\x80\xa8/\\u0027\\u0022 \
        \xc3\xa9\\u003C\\u003E\\u001F\\u007F\\b\\f\xe2\x80\xa8/\\u0027\\u0022 \
        \xc3\xa9\\u003c\\u003e\\u001f\x7f\\b\\f\xe2\x80\xa8/\\u0027\\u0022 \
        \xc3\xa9\\u003C\\u003E\\u001F\x7f\\b\\f\xe2\x80\xa8/\\u0027\\u0022 \
        \xc3\xa9\\u003c\\u003e\\u001f\x7f\\b\\f\xe2\x80\xa8\\/\\u0027\\u0022 \
        \xc3\xa9\\u003C\\u003E\\u001F\x7f\\b\\f\xe2\x80\xa8\\/\\u0027\\u0022 \
        \xc3\xa9\\u003C\\u003E\\u001f\x7f\\b\\f\xe2\x80\xa8/'\\\" \
        \xc3\xa9\\u003C\\u003E\\u001f\x7f\\b\\f\xe2\x80\xa8\\/'\\\" \
        \xc3\xa9\\u003C\\u003E\\u001f\x7f\\b\\f\xe2\x80\xa8/\\u0027\\u0022 \
        \xc3\xa9\\u003C\\u003E\\u001f\x7f\\b\\f\xe2\x80\xa8\\/\\u0027\\u0022 \
        \xc3\xa9\\u003c\\u003e\\u001f\x7f\\u0008\\u000c\xe2\x80\xa8/'\\\" \
        \xc3\xa9<>\\u001f\x7f\\u0008\\u000c\xe2\x80\xa8/'\\\" \\u00e9<>\\u001f\\u007f\\b\\f\\u2028/'\\\" \
        \\u00E9<>\\u001F\\u007F\\b\\f\\u2028/'\\\" \\u00e9<>\\u001f\\u007f\\b\\f\\u2028\\/'\\\" \
        \\u00E9<>\\u001F\\u007F\\b\\f\\u2028\\/'\\\" \\u00e9\\u003c\\u003e\\u001f\\u007f\\b\\f\\u2028/'\\\" \
        \\u00E9\\u003C\\u003E\\u001F\\u007F\\b\\f\\u2028/'\\\" \
        \\u00e9\\u003c\\u003e\\u001f\\u007f\\b\\f\\u2028\\/'\\\" \
        \\u00E9\\u003C\\u003E\\u001F\\u007F\\b\\f\\u2028\\/'\\\" \
        \\u00e9\\u003c\\u003e\\u001f\\u007f\\b\\f\\u2028/\\u0027\\\" \
        \\u00E9\\u003C\\u003E\\u001F\\u007F\\b\\f\\u2028/\\u0027\\\" \
        \\u00e9\\u003c\\u003e\\u001f\\u007f\\b\\f\\u2028/\\u0027\\u0022 \
        \\u00E9\\u003C\\u003E\\u001F\\u007F\\b\\f\\u2028/\\u0027\\u0022 \
        \\u00e9\\u003c\\u003e\\u001f\\u007f\\b\\f\\u2028\\/\\u0027\\u0022 \
        \\u00E9\\u003C\\u003E\\u001F\\u007F\\b\\f\\u2028\\/\\u0027\\u0022 \
        \\u00e9<>\\u001f\x7f\\b\\f\\u2028/'\\\" \\u00e9<>\\u001f\x7f\\b\\f\\u2028\\/'\\\" \
        \\u00e9\\u003C\\u003E\\u001f\x7f\\b\\f\\u2028/'\\\" \
        \\u00e9\\u003C\\u003E\\u001f\x7f\\b\\f\\u2028\\/'\\\" \
        \\u00e9\\u003C\\u003E\\u001f\x7f\\b\\f\\u2028/\\u0027\\u0022 \
        \\u00e9\\u003C\\u003E\\u001f\x7f\\b\\f\\u2028\\/\\u0027\\u0022 \xc3\xa9<>\\u001f\x7f\\b\\f\\u2028/'\\\" \
        \xc3\xa9<>\\u001f\x7f\\b\\f\\u2028\\/'\\\" \xc3\xa9\\u003C\\u003E\\u001f\x7f\\b\\f\\u2028/'\\\" \
        \xc3\xa9\\u003C\\u003E\\u001f\x7f\\b\\f\\u2028\\/'\\\" \
        \xc3\xa9\\u003C\\u003E\\u001f\x7f\\b\\f\\u2028/\\u0027\\u0022 \
        \xc3\xa9\\u003C\\u003E\\u001f\x7f\\b\\f\\u2028\\/\\u0027\\u0022 \
        \xc3\xa9\\u003c\\u003e\\u001f\x7f\\b\\f\\u2028/'\\\" \
        \xc3\xa9\\u003c\\u003e\\u001f\x7f\\u0008\\u000c\\u2028/'\\\" \
        \xc3\xa9<>\\u001f\x7f\\u0008\\u000c\\u2028/'\\\" ";
    assert_eq!(rt; text.as_slice(), row);
}

#[test]
fn url_of_a_fragment_and_a_turned_path(rt: HostRuntime) {
    let text = shown(rt.alloc(), url_forms(rt.alloc(), b"it's(a)|b;c\\d")).expect(&rt, "memory");
    let row: &[u8] = b"\
        it%27s%28a%29%7Cb%3Bc%5Cd it%27s%28a%29%7cb%3bc%5cd it's(a)%7Cb%3Bc%5Cd it's(a)%7cb%3bc%5cd \
        it's(a)%7Cb;c%5Cd it's(a)%7cb;c%5cd it%27s(a)%7Cb%3Bc%5Cd it%27s(a)%7cb%3bc%5cd it%27s(a)|b;c\\d \
        it's(a)|b;c\\d it%27s%28a%29%7Cb;c%5Cd it%27s%28a%29%7cb;c%5cd it%27s(a)%7Cb;c%5Cd it%27s(a)%7cb;c%5cd \
        it's(a)|b;c/d %69%74%27%73%28%61%29%7C%62%3B%63%5C%64 %69%74%27%73%28%61%29%7c%62%3b%63%5c%64 ";
    assert_eq!(rt; text.as_slice(), row);
}

#[test]
fn shell_as_programs_write_strings(rt: HostRuntime) {
    let text = shown(
        rt.alloc(),
        shell_forms(rt.alloc(), b"a b\"'\\\n\x01\x1b\xff"),
    )
    .expect(&rt, "memory");
    let row: &[u8] = b"\
        a b\"'\\''\\\n\x01\x1b\xff a b\"'\"'\"'\\\n\x01\x1b\xff a b\\\"'\\\\\n\x01\x1b\xff \
        a\\ b\\\"\\'\\\\\\\n\\\x01\\\x1b\xff a\\ b\\\"\\'\\\\\n\x01\x1b\xff \
        \\a\\ \\b\\\"\\'\\\\\\\n\x01\\\x1b\\\xff a b\"'\\\\\n\x01\x1b\xff a b\"\\'\\\\\\n\\001\\E\xff \
        a b\"\\'\\\\\\n\\001\\E\\377 a b\"''\\\n\x01\x1b\xff a b\"\"'\\\n\x01\x1b\xff \
        a\\ b\\\"\\'\\\\'\n'\\\x01\\\x1b\\\xff a\\ b\\\"\\'\\\\$'\\n'$'\\001'$'\\033'\xff \
        a\\ b\\\"\\'\\\\$'\\n'$'\\001'$'\\033'$'\\377' a\\ b\\\"\\'\\\\\\n\\ca\\e\xff \
        a b\"'\\\\\\n\\x01\\x1b\xff a b\"'\\\\\\n\\x01\\x1b\\xff a b\"\\'\\\\\\n\\x01\\x1b\xff \
        a b\"\\'\\\\\\n\\x01\\x1b\\xff a b\\\"'\\\\\\n\\x01\\x1b\xff a b\\\"'\\\\\\n\\x01\\x1b\\xff \
        a b\\\"'\\\\\\n\\001\\033\xff a b\\\"'\\\\\\n\\001\\033\\377 a\\ b\"'\\\\\\n\\001\\033\xff \
        a\\ b\"'\\\\\\n\\001\\033\\377 a b\\x22'\\x5C\\x0A\\x01\\x1B\xff a b\\x22'\\x5C\\x0A\\x01\\x1B\\xFF \
        a b\"\\'\\\\\n\x01\x1b\xff a b\"'\\''\\'$'\\n\\001\\033''\xff a b\"'\\''\\'$'\\n\\001\\033\\377 \
        61 20 62 22 27 5c 0a 01 1b ff 61:20:62:22:27:5c:0a:01:1b:ff 61-20-62-22-27-5c-0a-01-1b-ff \
        61 20 62 22 27 5C 0A 01 1B FF 61:20:62:22:27:5C:0A:01:1B:FF 61-20-62-22-27-5C-0A-01-1B-FF \
        97 32 98 34 39 92 10 1 27 255 97,32,98,34,39,92,10,1,27,255 97, 32, 98, 34, 39, 92, 10, 1, 27, 255 ";
    assert_eq!(rt; text.as_slice(), row);
}

#[test]
fn shell_as_fish_ruby_and_go_write(rt: HostRuntime) {
    let text = shown(
        rt.alloc(),
        shell_forms(rt.alloc(), b"it's \xc3\xa9\x01\x1a\x1b\x1c?"),
    )
    .expect(&rt, "memory");
    let row: &[u8] = b"\
        it'\\''s \xc3\xa9\x01\x1a\x1b\x1c? it'\"'\"'s \xc3\xa9\x01\x1a\x1b\x1c? it's \xc3\xa9\x01\x1a\x1b\x1c? \
        it\\'s\\ \xc3\xa9\\\x01\\\x1a\\\x1b\\\x1c\\? it\\'s\\ \xc3\xa9\x01\x1a\x1b\x1c\\? \
        \\i\\t\\'\\s\\ \\\xc3\\\xa9\x01\\\x1a\\\x1b\\\x1c\\? \\i\\t\\'\\s\\ \\\xc3\xa9\x01\\\x1a\\\x1b\\\x1c\\? \
        it's \xc3\xa9\x01\x1a\x1b\x1c\\? it\\'s \xc3\xa9\\001\\032\\E\\034? it\\'s \\303\\251\\001\\032\\E\\034? \
        it''s \xc3\xa9\x01\x1a\x1b\x1c? it\\'s\\ \\\xc3\xa9\\\x01\\\x1a\\\x1b\\\x1c\\? \
        it\\'s\\ \xc3\xa9$'\\001'$'\\032'$'\\033'$'\\034'\\? \
        it\\'s\\ $'\\303'$'\\251'$'\\001'$'\\032'$'\\033'$'\\034'\\? it\\'s\\ \xc3\xa9\\ca\\cz\\e\\x1c\\? \
        it's \xc3\xa9\\x01\\x1a\\x1b\\x1c? it's \\xc3\\xa9\\x01\\x1a\\x1b\\x1c? \
        it\\'s \xc3\xa9\\x01\\x1a\\x1b\\x1c? it\\'s \\xc3\\xa9\\x01\\x1a\\x1b\\x1c? \
        it's \xc3\xa9\\001\\032\\033\\034? it's \\303\\251\\001\\032\\033\\034? \
        it's\\ \xc3\xa9\\001\\032\\033\\034? it's\\ \\303\\251\\001\\032\\033\\034? \
        it's \xc3\xa9\\x01\\x1A\\x1B\\x1C? it's \\xC3\\xA9\\x01\\x1A\\x1B\\x1C? it\\'s \xc3\xa9\x01\x1a\x1b\x1c? \
        it'\\''s \xc3\xa9'$'\\001\\032\\033\\034''? it'\\''s '$'\\303\\251\\001\\032\\033\\034''? \
        69 74 27 73 20 c3 a9 01 1a 1b 1c 3f 69:74:27:73:20:c3:a9:01:1a:1b:1c:3f \
        69-74-27-73-20-c3-a9-01-1a-1b-1c-3f 69 74 27 73 20 C3 A9 01 1A 1B 1C 3F \
        69:74:27:73:20:C3:A9:01:1A:1B:1C:3F 69-74-27-73-20-C3-A9-01-1A-1B-1C-3F \
        105 116 39 115 32 195 169 1 26 27 28 63 105,116,39,115,32,195,169,1,26,27,28,63 \
        105, 116, 39, 115, 32, 195, 169, 1, 26, 27, 28, 63 ";
    assert_eq!(rt; text.as_slice(), row);
}

#[test]
fn lines_of_eight_bytes(rt: HostRuntime) {
    let text = shown(
        rt.alloc(),
        lines_forms(rt.alloc(), b"-----BEGIN\r\nAAAABBBB\nshort\n12345678"),
    )
    .expect(&rt, "memory");
    let row: &[u8] = b"-----BEGIN AAAABBBB 12345678 ";
    assert_eq!(rt; text.as_slice(), row);
}

#[test]
fn lines_of_one_line(rt: HostRuntime) {
    let text = shown(rt.alloc(), lines_forms(rt.alloc(), b"one line alone")).expect(&rt, "memory");
    let row: &[u8] = b"";
    assert_eq!(rt; text.as_slice(), row);
}

#[test]
fn json_of_no_text(rt: HostRuntime) {
    let text = shown(rt.alloc(), json_forms(rt.alloc(), b"\xa9key")).expect(&rt, "memory");
    assert_eq!(rt; text.as_slice(), b"\xa9key ".as_slice());
}

#[test]
fn forms_in_their_order(rt: HostRuntime) {
    let chosen = [Form::Hex, Form::Url, Form::Hex, Form::Shell];
    let text = shown(rt.alloc(), forms(rt.alloc(), b"key.", &chosen)).expect(&rt, "memory");
    let row: &[u8] = b"\
        6b65792e 6B65792E key. key%2E key%2e %6B%65%79%2E %6b%65%79%2e \\k\\e\\y\\. key\\. 6b 65 79 2e \
        6b:65:79:2e 6b-65-79-2e 6B 65 79 2E 6B:65:79:2E 6B-65-79-2E 107 101 121 46 107,101,121,46 \
        107, 101, 121, 46 ";
    assert_eq!(rt; text.as_slice(), row);
}

#[test]
fn forms_of_none(rt: HostRuntime) {
    let text = shown(rt.alloc(), forms(rt.alloc(), b"key.", &[])).expect(&rt, "memory");
    assert_eq!(rt; text.as_slice(), b"".as_slice());
}

#[test]
fn base64_of_json(rt: HostRuntime) {
    let patterns = nested_forms(rt.alloc(), b"k\\ey", Form::Json, Form::Base64);
    let text = shown(rt.alloc(), patterns).expect(&rt, "memory");
    let row: &[u8] = b"\
        a1xcZX a1xcZXk a1xcZXl a1xcZXm a1xcZXn tcXGV5 GtcXGV5 WtcXGV5 mtcXGV5 2tcXGV5 rXFxle BrXFxle \
        FrXFxle JrXFxle NrXFxle RrXFxle VrXFxle ZrXFxle drXFxle hrXFxle lrXFxle prXFxle trXFxle xrXFxle \
        1rXFxle 5rXFxle 9rXFxle rXFxleQ rXFxleR rXFxleS rXFxleT rXFxleU rXFxleV rXFxleW rXFxleX rXFxleY \
        rXFxleZ rXFxlea rXFxleb rXFxlec rXFxled rXFxlee rXFxlef ";
    assert_eq!(rt; text.as_slice(), row);
}

#[test]
fn urls_of_digits(rt: HostRuntime) {
    let patterns = nested_forms(rt.alloc(), b"a/b.", Form::Hex, Form::Url);
    let text = shown(rt.alloc(), patterns).expect(&rt, "memory");
    let row: &[u8] = b"612f622e %36%31%32%66%36%32%32%65 612F622E %36%31%32%46%36%32%32%45 ";
    assert_eq!(rt; text.as_slice(), row);
}

#[test]
fn names_of_forms(rt: HostRuntime) {
    assert!(rt; matches!(Form::of_name("base64"), Some(Form::Base64)));
    assert!(rt; matches!(Form::of_name("lines"), Some(Form::Lines)));
    assert!(rt; Form::of_name("Base64").is_none());
    assert!(rt; Form::of_name("line").is_none());
    assert_eq!(rt; Form::Shell.name(), "shell");
}

#[test]
fn three_bytes_are_too_short(rt: HostRuntime) {
    let text = format!(in rt.alloc(); "{}", FormError::TooShort).expect(&rt, "memory");
    assert_eq!(rt;
        text.as_str(),
        "a secret of fewer than four bytes has no forms"
    );
    assert!(rt; matches!(hex_forms(rt.alloc(), b"key"), Err(FormError::TooShort)));
    assert!(rt; matches!(base64_forms(rt.alloc(), b"key"), Err(FormError::TooShort)));
    assert!(rt; matches!(url_forms(rt.alloc(), b"key"), Err(FormError::TooShort)));
    assert!(rt; matches!(json_forms(rt.alloc(), b"key"), Err(FormError::TooShort)));
    assert!(rt; matches!(lines_forms(rt.alloc(), b"k\ny"), Err(FormError::TooShort)));
    assert!(rt;
        matches!(
            forms(rt.alloc(), b"key", &[Form::Hex]),
            Err(FormError::TooShort)
        )
    );
}
