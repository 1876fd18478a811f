//! The texts of the first policy: a start file, the same in Jsonnet, and a script.

/// The start file.
pub(crate) const START: &str = r#"{
 "security": {"levels": ["open", "staff", "sealed"], "categories": []},
 "integrity": {"levels": ["draft", "checked"], "categories": []},
 "subjects": [
  {"name": "eva", "maximum": "sealed", "current": "sealed", "integrity": "checked", "trusted": false},
  {"name": "tom", "maximum": "staff", "current": "open", "integrity": "draft", "trusted": false},
  {"name": "ada", "maximum": "sealed", "current": "open", "integrity": "checked", "trusted": true}
 ],
 "objects": [
  {"name": "root", "parent": null, "security": "open", "integrity": "checked"},
  {"name": "notices", "parent": "root", "security": "open", "integrity": "checked"},
  {"name": "minutes", "parent": "root", "security": "staff", "integrity": "checked"},
  {"name": "ledger", "parent": "root", "security": "staff", "integrity": "checked"},
  {"name": "will", "parent": "root", "security": "sealed", "integrity": "checked"},
  {"name": "inbox", "parent": "root", "security": "open", "integrity": "draft"}
 ],
 "matrix": [
  {"subject": "eva", "object": "will", "modes": ["read", "write"]},
  {"subject": "eva", "object": "ledger", "modes": ["read"]},
  {"subject": "eva", "object": "inbox", "modes": ["append"]},
  {"subject": "tom", "object": "notices", "modes": ["read"]},
  {"subject": "tom", "object": "minutes", "modes": ["read"]},
  {"subject": "tom", "object": "inbox", "modes": ["write"]},
  {"subject": "ada", "object": "root", "modes": ["write"]},
  {"subject": "ada", "object": "notices", "modes": ["write"]}
 ]
}
"#;

/// The same start file in Jsonnet: what all rows of a table share is written once.
pub(crate) const JSONNET: &str =
    r#"// jsonnet start.jsonnet > start.json makes the start file of this.
local person(name, maximum, current=maximum, integrity='checked', trusted=false) = {
  name: name, maximum: maximum, current: current, integrity: integrity, trusted: trusted,
};
local paper(name, security, integrity='checked', parent='root') = {
  name: name, parent: parent, security: security, integrity: integrity,
};
local may(subject, object, modes) = { subject: subject, object: object, modes: modes };
{
  security: { levels: ['open', 'staff', 'sealed'], categories: [] },
  integrity: { levels: ['draft', 'checked'], categories: [] },
  subjects: [
    person('eva', 'sealed'),
    person('tom', 'staff', current='open', integrity='draft'),
    person('ada', 'sealed', current='open', trusted=true),
  ],
  objects: [
    paper('root', 'open', parent=null),
    paper('notices', 'open'),
    paper('minutes', 'staff'),
    paper('ledger', 'staff'),
    paper('will', 'sealed'),
    paper('inbox', 'open', integrity='draft'),
  ],
  matrix: [
    may('eva', 'will', ['read', 'write']),
    may('eva', 'ledger', ['read']),
    may('eva', 'inbox', ['append']),
    may('tom', 'notices', ['read']),
    may('tom', 'minutes', ['read']),
    may('tom', 'inbox', ['write']),
    may('ada', 'root', ['write']),
    may('ada', 'notices', ['write']),
  ],
}
"#;

/// The script.
pub(crate) const SCRIPT: &str = "\
; mls run start.json day.script answers these lines. A line that begins with ; is a note.
; eva reads the will, and tries to add to what all can read
eva get-read will
eva get-append inbox
; tom is denied, goes to staff, and is granted
tom get-read minutes
tom level staff
tom get-read minutes
; ada makes a report and lets tom read it
ada get-write root
$report = ada create root staff checked
ada give read tom $report
tom get-read $report
";
