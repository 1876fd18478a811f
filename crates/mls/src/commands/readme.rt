//! The text beside the first policy that explains each member.

/// The text.
pub(crate) const README: &str = r#"# A first policy

A town archive has three people and five papers. `start.json` says who they are, how secret each paper is, and who may
do what. Try it, here:

    mls check start.json
    mls run start.json day.script
    mls explain start.json 'tom get-read minutes'
    mls lint start.json

Change it: `mls lint start.json` says what is wrong, and where. `start.jsonnet` is the same file in Jsonnet, where what
rows share is written once.

## What each member says

`security` lists how secret things are, from the least to the most: `levels`. `categories` are areas beside the levels,
such as projects; a label is a level and a set of categories, written `staff:eu,us`. Here there are none.

`integrity` lists how far content can be trusted, from the least to the most.

`subjects` are people, or programs that run for them.

| Member | Says |
|---|---|
| `name` | the name in requests |
| `maximum` | the highest security label that the subject may work at |
| `current` | the label that it works at now; it may change it |
| `integrity` | how far what it writes can be trusted |
| `trusted` | whether it is trusted not to leak: then it may write at a lower level than it has read at |

A trusted subject may also relabel any object, up or down, even above its own maximum, and give permissions on the root.
`mls powers start.json` shows this.

`objects` are what is protected: files, rows, folders. The first is the root.

| Member | Says |
|---|---|
| `name` | the name in requests |
| `parent` | the object that it lies in; `null` for the root |
| `security` | how secret it is: no less than its parent |
| `integrity` | how far its content can be trusted: no more than its parent's |

`matrix` gives permissions: a row is a subject, an object and modes. `read` looks, `append` adds without looking,
`write` does both, `execute` neither. Who holds `append` or `write` on an object may make objects in it; who holds
`write` may give permissions on those. A permission is needed, and the labels decide whether it can be used now.

Two members may stand beside these: `accesses`, what is held when the policy opens, as rows like the matrix's; and
`profile`, the number 1 or 2.

## Less to write

In a short file you may leave out `integrity`, `trusted`, `parent`, `current`, `categories`, `matrix` and `accesses`.
`mls complete short.json > start.json` fills them in: one integrity level `any`, `false`, the root, the maximum, and
nothing. Leave `integrity` out at first: an object without it gets the lowest level, which no subject of a higher one
may read.
"#;
