//! An office text, and edits of it that put a fault at a known place.

/// An office with rules and LIVE's rows, and with a workspace North that has a base, rows and a savepoint.
pub(crate) const OFFICE: &str = r#"{"format":4,"tables":[
{"name":"valve","columns":[["kind","TEXT"]],"shape":"POINT"},
{"name":"main","columns":[["code","TEXT"],["n","INT"]],"shape":"SEGMENT"}],
"rules":[
{"kind":"UNIQUE","subject":{"table":"main"},"columns":["code"],"known":[[2,5]]},
{"kind":"ENDNODE","subject":{"table":"main"},"tip":"FIRST","server":{"table":"valve"},"known":[[2],[5]]}],
"live":[
{"t":"valve","k":1,"v":["gate"],"s":[0,0]},
{"t":"main","k":2,"v":["A",7],"s":[0,0,50,0]},
{"t":"valve","k":3,"v":["ball"],"s":[50,0]}],
"workspaces":[
{"name":"North","parent":"LIVE",
"base":[{"t":"valve","k":4,"v":["tee"],"s":[1,1]}],
"rows":[{"t":"main","k":5,"v":["B",8],"s":[2,2,3,3]},{"t":"valve","k":3,"gone":true}],
"marks":[{"child":"Inner"},{"savepoint":"s1","rows":[{"t":"valve","k":6,"gone":true},{"t":"valve","k":7,"v":["cap"],"s":[9,9]}]}]},
{"name":"Inner","parent":"North"}]}"#;

/// What stands in the text, what stands there after the edit, and the fault with the item that it is at.
pub(crate) const EDITS: &str = r#""format":4, ~ "format":4,  => fits
"format":4, ~ "format":4,, => NotJson Whole
"format":4 ~ "format":3 => fits
"format":4 ~ "format":5 => BadField Whole
"tables":[ ~ "tables":0,"x":[ => BadField Whole
"rules":[ ~ "rules":0,"x":[ => BadField Whole
"live":[ ~ "live":0,"x":[ => BadField Whole
"workspaces":[ ~ "workspaces":0,"x":[ => BadField Whole
"name":"main" ~ "name":"valve" => BadSchema Whole
"POINT" ~ "DOT" => BadField Table(0)
"INT" ~ "REAL" => BadField Table(1)
"columns":["code"] ~ "columns":"code" => BadField Rule(0)
"columns":["code"] ~ "columns":["kode"] => BadRule Rule(0)
"columns":["code"] ~ "columns":[] => BadRule Rule(0)
"tip":"FIRST" ~ "tip":"LAST" => BadField Rule(1)
"server":{"table":"valve"} ~ "server":{"table":"wave"} => BadRule Rule(1)
"server":{"table":"valve"} ~ "server":{"table":"main"} => BadRule Rule(1)
"known":[[2,5]] ~ "known":[[2]] => BadField Rule(0)
"known":[[2,5]] ~ "known":[[5,2]] => BadRule Rule(0)
"known":[[2],[5]] ~ "known":[2] => BadField Rule(1)
"known":[[2],[5]] ~ "known":[[2],[0]] => BadRule Rule(1)
"s":[0,0]} ~ "s":[0,0.5]} => BadField Live(0)
"k":2 ~ "k":"2" => BadField Live(1)
"v":["A",7] ~ "v":["A","7"] => BadRow Live(1)
"v":["ball"] ~ "v":"ball" => BadField Live(2)
"k":3,"v" ~ "k":1,"v" => RepeatedCell Live(2)
"k":3,"v" ~ "k":3,"gone":true,"v" => BadField Live(2)
"name":"North" ~ "name":0 => BadField Workspace(0)
"base":[ ~ "base":0,"x":[ => BadField Workspace(0)
"marks":[ ~ "marks":0,"x":[ => BadField Workspace(0)
"parent":"North" ~ "parent":"South" => BadPart Workspace(1)
"name":"Inner" ~ "names":"Inner" => BadField Workspace(1)
"k":4 ~ "k":"4" => BadField Base(0, 0)
"v":["tee"] ~ "v":[5] => BadRow Base(0, 0)
"v":["B",8] ~ "v":["B"] => BadRow Row(0, 0)
"k":3,"gone":true ~ "k":3,"gone":1 => BadField Row(0, 1)
"t":"valve","k":3,"gone" ~ "t":"main","k":5,"gone" => RepeatedCell Row(0, 1)
"t":"valve","k":3,"gone" ~ "t":"wave","k":3,"gone" => BadRow Row(0, 1)
"child":"Inner" ~ "child":0 => BadField Mark(0, 0)
"child":"Inner" ~ "child":0,"rows":[{"t":0}] => BadField Mark(0, 0)
"savepoint":"s1" ~ "savepoint":0 => BadField Mark(0, 1)
"savepoint":"s1","rows":[ ~ "savepoint":"s1","rows":0,"x":[ => BadField Mark(0, 1)
"k":6 ~ "k":"6" => BadField Saved(0, 1, 0)
"k":7 ~ "k":6 => RepeatedCell Saved(0, 1, 1)
"v":["cap"] ~ "v":[1] => BadRow Saved(0, 1, 1)"#;
