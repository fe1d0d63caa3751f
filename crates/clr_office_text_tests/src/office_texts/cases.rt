//! Parts of office texts as lines, and why the whole text is refused, or `fits`.

/// Cells of LIVE, and more keys behind a caret.
pub(crate) const CELLS: &str = r#"cells ^,"rules":[],"workspaces":[] => fits
cells {"t":"node","k":9,"v":["valve",9223372036854775807],"s":[5,5],"gone":false,"note":null}^ => fits
cells {"t":"node","k":9,"v":["",-9223372036854775808],"s":[-1000000000,1000000000]}^ => fits
cells {"t":"node","k":8,"k":9,"v":["valve",1],"s":[5,5]},{"t":"node","k":8,"v":["valve",1],"s":[5,5]}^ => fits
cells 1^ => BadField
cells {"t":"node","k":1.0,"v":["valve",1],"s":[5,5]}^ => BadField
cells {"t":"node","k":-0,"v":["valve",1],"s":[5,5]}^ => BadField
cells {"t":"node","k":9223372036854775808,"v":["valve",1],"s":[5,5]}^ => BadField
cells {"t":"node","k":9,"s":[5,5]}^ => BadField
cells {"t":"node","k":9,"v":["valve",9223372036854775808],"s":[5,5]}^ => BadField
cells {"t":"node","k":9,"v":["valve",null],"s":[5,5]}^ => BadField
cells {"t":"node","k":9,"v":["valve",1],"s":[5]}^ => BadField
cells {"t":"node","k":9,"v":["valve",1],"s":[5,5,5]}^ => BadField
cells {"t":"node","k":9,"v":["valve",1],"s":[5,5,6,6,7]}^ => BadField
cells {"t":"node","k":9,"v":["valve",1],"s":[5,5.0]}^ => BadField
cells {"t":"node","k":9,"v":["valve",1],"s":[5,5],"gone":true}^ => BadField
cells {"t":"node","k":9,"v":["valve",1],"s":[5,5],"gone":null}^ => BadField
cells {"t":"main","k":9,"v":["valve",1],"s":[5,5]},{"t":"node","k":"9","v":["valve",1],"s":[5,5]}^ => BadField
cells {"t":"main","k":9,"v":["valve",1],"s":[5,5]}^,"workspaces":null => BadRow
cells {"t":"node","k":9,"v":[1,"valve"],"s":[5,5]}^ => BadRow
cells {"t":"node","k":9,"v":["valve",1],"s":[]}^ => BadRow
cells {"t":"node","k":0,"v":["valve",1],"s":[5,5]}^ => BadRow
cells {"t":"node","k":9223372036854775807,"v":["valve",1],"s":[5,5]}^ => BadRow
cells {"t":"node","k":9,"v":["valve",1],"s":[5,5]},{"t":"node","k":9,"v":["tee",2],"s":[7,7]}^ => RepeatedCell
cells {"t":"node","k":9,"v":["valve",1],"s":[5,5]},{"t":"node","k":9,"v":["tee"],"s":[7,7]}^ => BadRow
cells ^,"rules":null => BadField
cells ^,"workspaces":null => BadField"#;

/// Whole texts; and lists within one another, by their levels.
pub(crate) const TEXTS: &str = r#"whole  => NotJson
whole {"format":1,"tables":[],"live":[] => NotJson
whole {"format":1,"tables":[],"live":[]}x => NotJson
whole {"format":1,"tables":[],"live":[],"note":9e400} => NotJson
whole {"format":1,"tables":[],"live":[],"note":"\ud800"} => NotJson
whole [] => BadField
whole {"tables":[],"live":[]} => BadField
whole {"format":1.0,"tables":[],"live":[]} => BadField
whole {"format":1e0,"tables":[],"live":[]} => BadField
whole {"format":"1","tables":[],"live":[]} => BadField
whole {"format":1,"tables":[],"live":[],"format":0} => BadField
whole {"format":0,"tables":[],"live":[],"format":1} => fits
whole {"format":2,"tables":[],"live":[]} => fits
whole {"format":3,"tables":[],"live":[]} => fits
whole {"format":4,"tables":[],"live":[]} => fits
whole {"format":5,"tables":[],"live":[]} => BadField
whole {"format":3,"tables":[{"name":"a","columns":[],"shape":"PATH"}],"live":[]} => fits
whole {"format":1,"tables":[{"name":"a","columns":[],"shape":"PATH"}],"live":[]} => BadField
whole {"format":1,"live":[]} => BadField
whole {"format":1,"tables":null,"live":[]} => BadField
whole {"format":1,"tables":[{"name":"a","columns":[["b","REAL"]],"shape":"NONE"}],"live":[]} => BadField
whole {"format":1,"tables":[{"name":"a","columns":[["b"]],"shape":"NONE"}],"live":[]} => BadField
whole {"format":1,"tables":[{"name":"a","columns":[["b","INT",1]],"shape":"NONE"}],"live":[]} => BadField
whole {"format":1,"tables":[{"name":"a","columns":[],"shape":"AREA"}],"live":[]} => BadField
whole {"format":1,"tables":[{"name":"9a","columns":[],"shape":"NONE"},{"name":"b"}],"live":[]} => BadField
whole {"format":1,"tables":[{"name":"9a","columns":[],"shape":"NONE"}],"rules":null} => BadSchema
whole {"format":1,"tables":[]} => BadField
lists 126 => fits
lists 127 => NotJson"#;

/// Rules; and as many good ones.
pub(crate) const RULES: &str =
    r#"rules {"kind":"UNIQUE","subject":{"table":"pipe"},"columns":["code"]} => BadRule
rules {"kind":"UNIQUE","subject":{"table":"main"},"columns":["size"]} => BadRule
rules {"kind":"UNIQUE","subject":{"table":"main"},"columns":["KEY"]} => BadRule
rules {"kind":"UNIQUE","subject":{"table":"main"},"columns":[]} => BadRule
rules {"kind":"UNIQUE","subject":{"table":"main","where":[["size",1]]},"columns":["code"]} => BadRule
rules {"kind":"UNIQUE","subject":{"table":"node","where":[["size","1"]]},"columns":["kind"]} => BadRule
rules {"kind":"PARTNER","subject":{"table":"node"},"columns":["kind"],"server":{"table":"main"},"server_columns":["KEY"]} => BadRule
rules {"kind":"PARTNER","subject":{"table":"node"},"columns":["size"],"server":{"table":"main"},"server_columns":["KEY","KEY"]} => BadRule
rules {"kind":"ENDNODE","subject":{"table":"node"},"tip":"FIRST","server":{"table":"node"}} => BadRule
rules {"kind":"CROSSING","a":{"table":"main"},"b":{"table":"main"},"server":{"table":"main"}} => BadRule
rules {"kind":"NEAR","a":{"table":"node"},"b":{"table":"node"},"d":0} => BadRule
rules {"kind":"NEAR","a":{"table":"node"},"b":{"table":"node"},"d":1000001} => BadRule
rules 1 => BadField
rules {"subject":{"table":"main"},"columns":["code"]} => BadField
rules {"kind":"unique","subject":{"table":"main"},"columns":["code"]} => BadField
rules {"kind":"UNIQUE","subject":"main","columns":["code"]} => BadField
rules {"kind":"UNIQUE","subject":{"table":"main"},"columns":"code"} => BadField
rules {"kind":"UNIQUE","subject":{"table":"main"},"columns":[0]} => BadField
rules {"kind":"UNIQUE","subject":{"table":"main","where":null},"columns":["code"]} => BadField
rules {"kind":"UNIQUE","subject":{"table":"main","where":[["code"]]},"columns":["code"]} => BadField
rules {"kind":"UNIQUE","subject":{"table":"main","where":[["code",1.0]]},"columns":["code"]} => BadField
rules {"kind":"PARTNER","subject":{"table":"node"},"columns":["size"],"server":{"table":"main"}} => BadField
rules {"kind":"ENDNODE","subject":{"table":"main"},"tip":"LAST","server":{"table":"node"}} => BadField
rules {"kind":"NEAR","a":{"table":"node"},"b":{"table":"node"},"d":1.0} => BadField
rules {"kind":"UNIQUE","subject":{"table":"pipe"},"columns":["code"]},1 => BadField
rules {"kind":"UNIQUE","subject":{"table":"main"},"columns":["code"],"known":1} => fits
many 64 => fits
many 65 => BadRule"#;

/// Workspaces; and what stands behind the name and the parent of one.
pub(crate) const WORKSPACES: &str = r#"parts {"name":"W1","parent":"LIVE"} => fits
parts 1 => BadField
parts {"name":"W1"} => BadField
parts {"name":1,"parent":"LIVE"} => BadField
parts {"name":"W1","parent":null,"base":null} => BadField
parts {"name":"W1","parent":"live"} => BadPart
parts {"name":"W1","parent":"W1"} => BadPart
parts {"name":"W2","parent":"W1"},{"name":"W1","parent":"LIVE"} => BadPart
parts {"name":"W1","parent":"W2","base":null} => BadPart
parts {"name":"W1","parent":"W2"},1 => BadPart
part "base":[{"t":"node","k":9,"gone":true,"s":1}] => fits
part "base":null => BadField
part "rows":{} => BadField
part "rows":[{"t":"node","k":9,"gone":1,"v":[],"s":[]}] => BadField
part "rows":[{"t":"node","k":9}] => BadField
part "rows":[{"t":"pipe","k":9,"gone":true},1] => BadField
part "rows":[{"t":"pipe","k":9,"gone":true}] => BadRow
part "rows":[{"t":"node","k":0,"gone":true}] => BadRow
part "rows":[{"t":"node","k":9,"v":[1],"s":[]}] => BadRow
part "base":[{"t":"pipe","k":9,"gone":true}],"rows":null => BadRow
part "rows":[{"t":"node","k":9,"v":[],"s":[]},{"t":"node","k":9,"gone":true}] => RepeatedCell
part "base":[{"t":"node","k":9,"gone":true}],"rows":[{"t":"node","k":9,"v":[],"s":[]}] => fits
part "marks":[{"savepoint":"s1"}] => fits
part "marks":null => BadField
part "marks":[1] => BadField
part "marks":[{"child":null,"savepoint":"s1"}] => BadField
part "marks":[{"savepoint":"s1","rows":null}] => BadField
part "marks":[{"savepoint":"s1","rows":[{"t":"pipe","k":9,"gone":true}]},1] => BadField
part "marks":[{"savepoint":"s1","rows":[{"t":"pipe","k":9,"gone":true}]}] => BadRow
part "rows":[{"t":"pipe","k":9,"gone":true}],"marks":null => BadRow"#;

/// Cells of a table, by how many coordinates they have.
pub(crate) const PATHS: &str = r#"path route 0 => BadRow
path route 2 => BadRow
path route 4 => fits
path route 5 => BadField
path route 64 => fits
path route 66 => BadRow
path main 4 => fits
path main 6 => BadField
path pipe 4 => BadRow
path pipe 6 => BadField"#;

/// Flags of a workspace that say whether it is kept, each behind the format of its text.
pub(crate) const FLAGS: &str = "flag 1 null => 1 false
flag 2 null => 1 false
flag 3 null => BadField
flag 4 null => BadField
flag 1 true => 1 false
flag 2 true => 1 false
flag 3 true => 1 true
flag 4 true => 1 true";
