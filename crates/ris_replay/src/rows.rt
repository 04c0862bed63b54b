//! Worked rows: scripts with the transcripts that they are to give.

/// The words of a run, its script, its output but for the last number, and the greatest number that this may be.
#[derive(Clone, Copy)]
pub(crate) struct Row {
    pub(crate) words: &'static str,
    pub(crate) script: &'static str,
    pub(crate) text: &'static str,
    pub(crate) most: u64,
}

/// The rows.
pub(crate) fn rows() -> &'static [Row] {
    &[
        // An edge that comes, and a read of it.
        Row {
            words: "replay --analyses bfs:0",
            script: "risgraph,1,3,1\n0,adde,0,1,5\n0,value,last,0,1\n",
            text: "0,0,place,1\n0,1,value,1,1,1\njournal,entry,1,0,0\nsummary,1,0,0,",
            most: 0,
        },
        // No commands.
        Row {
            words: "replay --analyses bfs:0",
            script: "risgraph,1,3,1\n",
            text: "summary,0,0,0,",
            most: 0,
        },
        // The start, and vertices that are unreached and absent.
        Row {
            words: "replay --analyses bfs:0",
            script: "risgraph,1,3,1\n0,value,@0,0,0\n0,value,@0,0,1\n0,value,@0,0,9\n0,value,@0,0,4194304\n",
            text: "0,0,value,0,0,0\n0,1,value,0,0,unreached\n0,2,value,0,0,absent\n0,3,value,0,0,absent\nsummary,0,0,0,",
            most: 0,
        },
        // Copies of an edge.
        Row {
            words: "replay --analyses sssp:0",
            script: "risgraph,1,2,1\n0,adde,0,1,7\n0,adde,0,1,7\n0,dele,0,1,7\n0,dele,0,1,7\n0,dele,0,1,7\n0,value,@3,0,1\n0,value,@4,0,1\n",
            text: "0,0,place,1\n0,1,place,2\n0,2,place,3\n0,3,place,4\n0,4,noedge,4,1\n0,5,value,4,3,7\n0,6,value,4,4,unreached\njournal,entry,1,0,0\njournal,entry,2,0,1\njournal,entry,3,0,2\njournal,entry,4,0,3\nsummary,4,0,1,",
            most: 0,
        },
        // A cycle of weight 0 keeps no value.
        Row {
            words: "replay --analyses sssp:0",
            script: "risgraph,1,3,1\nbase,0,1,0\nbase,1,2,0\nbase,2,1,0\n0,dele,0,1,0\n0,value,last,0,1\n0,value,last,0,2\n",
            text: "0,0,place,1\n0,1,value,1,1,unreached\n0,2,value,1,1,unreached\njournal,entry,1,0,0\nsummary,1,0,0,",
            most: 10,
        },
        // A whole subtree falls, and one vertex is reached again.
        Row {
            words: "replay --analyses sssp:0",
            script: "risgraph,1,4,1\nbase,0,1,1\nbase,1,2,1\nbase,2,3,1\nbase,0,3,9\n0,dele,0,1,1\n0,value,last,0,1\n0,value,last,0,2\n0,value,last,0,3\n0,modified,last,0\n",
            text: "0,0,place,1\n0,1,value,1,1,unreached\n0,2,value,1,1,unreached\n0,3,value,1,1,9\n0,4,modified,1,1,3,1,2,3\njournal,entry,1,0,0\nsummary,1,0,0,",
            most: 13,
        },
        // Components.
        Row {
            words: "replay --analyses wcc",
            script: "risgraph,1,4,1\nbase,3,2,1\nbase,1,2,1\n0,dele,3,2,1\n0,value,last,0,1\n0,value,last,0,2\n0,value,last,0,3\n0,modified,@1,0\n",
            text: "0,0,place,1\n0,1,value,1,1,1\n0,2,value,1,1,1\n0,3,value,1,1,3\n0,4,modified,1,1,1,3\njournal,entry,1,0,0\nsummary,1,0,0,",
            most: 8,
        },
        // A parent changes and no value does.
        Row {
            words: "replay --analyses sswp:0",
            script: "risgraph,1,4,1\nbase,0,1,5\nbase,1,3,5\nbase,0,2,5\n0,adde,2,3,5\n0,dele,1,3,5\n0,parent,@0,0,3\n0,parent,@2,0,3\n0,modified,@2,0\n0,value,@2,0,3\n",
            text: "0,0,place,1\n0,1,place,2\n0,2,parent,2,0,1,1,3,5\n0,3,parent,2,2,2,2,3,5\n0,4,modified,2,2,0\n0,5,value,2,2,5\njournal,entry,1,0,0\njournal,entry,2,0,1\nsummary,2,0,0,",
            most: 7,
        },
        // A transaction that is refused.
        Row {
            words: "replay --analyses bfs:0",
            script: "risgraph,1,3,1\n0,begin\n0,adde,0,1,1\n0,dele,1,2,1\n0,adde,1,2,1\n0,commit\n0,current\n0,value,last,0,1\n",
            text: "0,0,noedge,0,2\n0,1,current,0,0\n0,2,value,0,0,unreached\nsummary,0,0,1,",
            most: 0,
        },
        // A transaction without effect.
        Row {
            words: "replay --analyses bfs:0",
            script: "risgraph,1,2,1\n0,begin\n0,adde,0,1,1\n0,dele,0,1,1\n0,commit\n0,modified,last,0\n",
            text: "0,0,place,1\n0,1,modified,1,1,0\njournal,entry,1,0,0\nsummary,1,0,0,",
            most: 0,
        },
        // The root goes and comes back.
        Row {
            words: "replay --analyses bfs:0",
            script: "risgraph,1,3,1\nbase,0,1,1\nbase,1,2,1\n0,delv,0\n0,value,last,0,0\n0,value,last,0,1\n0,modified,last,0\n0,addv,0\n0,value,last,0,0\n0,value,last,0,1\n0,modified,last,0\n0,delv,9\n",
            text: "0,0,place,1\n0,1,value,1,1,absent\n0,2,value,1,1,unreached\n0,3,modified,1,1,3,0,1,2\n0,4,place,2\n0,5,value,2,2,0\n0,6,value,2,2,unreached\n0,7,modified,2,2,1,0\n0,8,novertex,2,1,9\njournal,entry,1,0,0\njournal,entry,2,0,4\nsummary,2,0,1,",
            most: 7,
        },
        // Versions that are not yet made.
        Row {
            words: "replay --analyses bfs:0",
            script: "risgraph,1,2,1\n0,adde,0,1,1\n0,adde,0,1,2\n0,value,@5,0,1\n0,value,@3,0,1\n0,value,@2,0,1\n0,release,3\n",
            text: "0,0,place,1\n0,1,place,2\n0,2,notyet,2\n0,3,notyet,2\n0,4,value,2,2,1\n0,5,notyet,2\njournal,entry,1,0,0\njournal,entry,2,0,1\nsummary,2,0,3,",
            most: 0,
        },
        // Paths.
        Row {
            words: "replay --analyses bfs:0",
            script: "risgraph,1,4,1\nbase,0,1,1\nbase,1,2,1\n0,path,@0,0,2\n0,path,@0,0,0\n0,path,@0,0,3\n0,parent,@0,0,0\n",
            text: "0,0,path,0,0,3,2,1,0\n0,1,path,0,0,1,0\n0,2,path,0,0,0\n0,3,parent,0,0,none\nsummary,0,0,0,",
            most: 4,
        },
        // Two transactions whose records interleave.
        Row {
            words: "replay --analyses bfs:0",
            script: "risgraph,1,3,2\n0,begin\n1,begin\n0,adde,0,1,1\n1,adde,0,2,1\n0,adde,1,2,1\n0,commit\n1,commit\n0,value,@1,0,2\n0,value,@2,0,2\n",
            text: "0,0,place,1\n0,1,value,2,1,2\n0,2,value,2,2,1\n1,0,place,2\njournal,entry,1,0,0\njournal,entry,2,1,0\nsummary,2,0,0,",
            most: 1,
        },
        // Edges that come one after another.
        Row {
            words: "replay --analyses bfs:0",
            script: "risgraph,1,4,1\n0,adde,0,1,9\n0,adde,1,2,9\n0,value,last,0,2\n0,adde,0,2,9\n0,value,last,0,2\n0,value,last,0,3\n0,value,last,0,7\n",
            text: "0,0,place,1\n0,1,place,2\n0,2,value,2,2,2\n0,3,place,3\n0,4,value,3,3,1\n0,5,value,3,3,unreached\n0,6,value,3,3,absent\njournal,entry,1,0,0\njournal,entry,2,0,1\njournal,entry,3,0,3\nsummary,3,0,0,",
            most: 0,
        },
        // A vertex that goes and comes back.
        Row {
            words: "replay --analyses bfs:0",
            script: "risgraph,1,3,1\nbase,0,1,1\nbase,1,2,1\n0,value,@0,0,2\n0,delv,1\n0,value,last,0,2\n0,adde,0,1,1\n0,addv,1\n0,value,@3,0,1\n0,dele,0,2,4\n",
            text: "0,0,value,0,0,2\n0,1,place,1\n0,2,value,1,1,unreached\n0,3,novertex,1,1,1\n0,4,place,2\n0,5,notyet,2\n0,6,noedge,2,1\njournal,entry,1,0,1\njournal,entry,2,0,4\nsummary,2,0,3,",
            most: 6,
        },
        // A transaction whose second part is refused.
        Row {
            words: "replay --analyses bfs:0",
            script: "risgraph,1,3,1\n0,begin\n0,adde,0,1,1\n0,adde,1,2,1\n0,commit\n0,begin\n0,dele,0,1,1\n0,adde,0,9,1\n0,commit\n0,value,last,0,2\n",
            text: "0,0,place,1\n0,1,novertex,1,2,9\n0,2,value,1,1,2\njournal,entry,1,0,0\nsummary,1,0,1,",
            most: 1,
        },
        // Marks, and reads behind them.
        Row {
            words: "replay --analyses sssp:0",
            script: "risgraph,1,2,1\n0,adde,0,1,1\n0,adde,0,1,2\n0,release,2\n0,release,1\n0,value,@1,0,1\n0,value,@2,0,1\n0,parent,@2,0,1\n0,modified,@2,0\n0,release,9\n0,current\n",
            text: "0,0,place,1\n0,1,place,2\n0,2,marked,2,2\n0,3,marked,2,1\n0,4,released,2,2\n0,5,value,2,2,1\n0,6,parent,2,2,0,0,1,1\n0,7,modified,2,2,0\n0,8,notyet,2\n0,9,current,2,2\njournal,entry,1,0,0\njournal,entry,2,0,1\njournal,mark,2,0,2\njournal,mark,2,0,3\nsummary,2,2,2,",
            most: 0,
        },
        // Weights that change.
        Row {
            words: "replay --analyses sssp:0,sswp:0",
            script: "risgraph,2,3,1\nbase,0,1,4\nbase,1,2,4\n0,setw,0,1,4,9\n0,value,last,0,2\n0,value,last,1,2\n0,setw,0,1,4,5\n0,setw,0,1,9,68719476736\n0,adde,0,2,68719476735\n0,value,last,1,2\n0,value,last,1,0\n0,modified,@1,1\n",
            text: "0,0,place,1\n0,1,value,1,1,13\n0,2,value,1,1,4\n0,3,noedge,1,1\n0,4,limit,1,1,68719476736\n0,5,place,2\n0,6,value,2,2,68719476735\n0,7,value,2,2,68719476736\n0,8,modified,2,1,1,1\njournal,entry,1,0,0\njournal,entry,2,0,5\nsummary,2,0,2,",
            most: 14,
        },
        // A session that leaves.
        Row {
            words: "replay --analyses bfs:0",
            script: "risgraph,2,2,2\n0,adde,0,1,1\n0,release,1\n0,value,@0,0,1\n1,current\n1,leave\n",
            text: "0,0,place,1\n0,1,marked,1,1\n0,2,released,1,1\n1,0,current,0,0\n1,1,left,1\njournal,entry,1,0,0\njournal,leave,1,1,1\njournal,mark,1,0,1\nsummary,1,1,1,",
            most: 0,
        },
        // A number past every limit.
        Row {
            words: "replay --analyses sssp:0",
            script: "risgraph,1,2,1\n0,adde,0,1,18446744073709551615\n",
            text: "0,0,limit,0,1,18446744073709551615\nsummary,0,0,1,",
            most: 0,
        },
        // The greatest place.
        Row {
            words: "replay --analyses sssp:0",
            script: "risgraph,1,2,1\n0,value,@18446744073709551615,0,1\n",
            text: "0,0,notyet,0\nsummary,0,0,1,",
            most: 0,
        },
        // Leading zeros.
        Row {
            words: "replay --analyses sssp:0",
            script: "risgraph,1,2,1\n00,adde,00,01,05\n",
            text: "0,0,place,1\njournal,entry,1,0,0\nsummary,1,0,0,",
            most: 0,
        },
    ]
}

/// Rows whose sessions meet in one turn.
pub(crate) fn rows_of_turns() -> &'static [Row] {
    &[
        // Two deletions of the copies of one tree edge in one turn.
        Row {
            words: "replay --analyses bfs:0",
            script: "risgraph,1,2,2\nbase,0,1,0\nbase,0,1,0\n0,dele,0,1,0\n1,dele,0,1,0\n0,value,last,0,1\n1,value,last,0,1\n",
            text: "0,0,place,1\n0,1,value,2,1,1\n1,0,place,2\n1,1,value,2,2,unreached\njournal,entry,1,0,0\njournal,entry,2,1,0\nsummary,2,0,0,",
            most: 2,
        },
        // Marks and the floor.
        Row {
            words: "replay --analyses bfs:0",
            script: "risgraph,1,2,2\n0,adde,0,1,1\n0,adde,0,1,2\n0,release,4\n0,value,@1,0,1\n1,addv,0\n1,addv,0\n1,addv,0\n1,value,@1,0,1\n1,release,3\n1,value,@2,0,1\n1,value,@3,0,1\n1,current\n",
            text: "0,0,place,2\n0,1,place,3\n0,2,marked,5,4\n0,3,value,5,1,unreached\n1,0,place,1\n1,1,place,4\n1,2,place,5\n1,3,value,5,1,unreached\n1,4,marked,5,3\n1,5,released,5,3\n1,6,value,5,3,1\n1,7,current,5,3\njournal,entry,1,1,0\njournal,entry,2,0,0\njournal,entry,3,0,1\njournal,entry,4,1,1\njournal,entry,5,1,2\njournal,mark,5,0,2\njournal,mark,5,1,4\nsummary,5,2,1,",
            most: 0,
        },
        // A candidate that is refused before one that is applied.
        Row {
            words: "replay --analyses bfs:0",
            script: "risgraph,1,2,2\nbase,0,1,1\n0,dele,0,1,3\n1,adde,0,1,3\n",
            text: "0,0,noedge,0,1\n1,0,place,1\njournal,entry,1,1,0\nsummary,1,0,1,",
            most: 2,
        },
    ]
}

/// A row with the greatest vertex, for which tables of all vertices are made.
pub(crate) fn row_of_limits() -> Row {
    Row {
        words: "replay --analyses sssp:0",
        script: "risgraph,1,2,1\n0,adde,0,1,4294967295\n0,adde,0,1,4294967296\n0,addv,4194303\n0,addv,4194304\n0,value,last,0,1\n0,value,last,0,4194303\n",
        text: "0,0,place,1\n0,1,limit,1,1,4294967296\n0,2,place,2\n0,3,limit,2,1,4194304\n0,4,value,2,2,4294967295\n0,5,value,2,2,unreached\njournal,entry,1,0,0\njournal,entry,2,0,2\nsummary,2,0,2,",
        most: 0,
    }
}
