// The rules by worked examples, computed: specs/ has them. No code stands here.
